// SPDX-License-Identifier: Apache-2.0
// The entry and the body of a kind, in a file whose four entries are sound: each kind is then there once.
ghost use Rattle.std.specs.Prelude.{◌≡◌};
ghost use Rattle.capture_table.specs.Table.{kind_number};
ghost use Rattle.capture_table.specs.Sections.{first_faulty, entry_of, section_of};

use crate::entries::entry_at;
use crate::{Entry, Kind};

// The entry of a kind.
// Stays (fixed): a number, since `entry_of` gives the entry that the definition names for any number, which `Kind` would shut out
pub fn entry_of(file: &[u8], kind: u32) -> Entry
    requires { first_faulty file.now ≡ None }
    ensures { result ≡ entry_of file.now kind }
{
    for n in 0..3 {
        let entry = entry_at(file, n);
        if entry.kind == kind {
            return entry;
        }
    }
    entry_at(file, 3)
}

// The body of a kind, as a part of the file.
pub fn section(file: &[u8], kind: Kind) -> &[u8]
    requires { first_faulty file.now ≡ None }
    ensures { result.now ≡ section_of file.now (kind_number kind) }
{
    let entry = entry_of(file, kind.number());
    let from = entry.from as usize;
    let to = from + entry.size as usize;
    &file[from..to]
}
