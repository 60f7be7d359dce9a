// SPDX-License-Identifier: Apache-2.0
// An entry of the table: three numbers of four bytes, the low byte first.
ghost use Rattle.std.specs.Prelude.{◌≡◌, ◌+◌, ◌*◌, ◌≤◌, length};
ghost use Rattle.capture_table.specs.Table.{word_at, entry_at, entry_size};

use crate::Entry;

// The bytes of an entry.
pub(crate) const ENTRY: usize = 12;

// The number at a place: four bytes, the low byte first.
#[tactic(auto, unfolding(crate::specs::Table::word_at))]
fn word_at(file: &[u8], at: usize) -> u32
    requires { at + 4 ≤ length file.now }
    ensures { result ≡ word_at file.now at }
{
    u32::from_le_bytes([file[at], file[at + 1], file[at + 2], file[at + 3]])
}

// An entry of the table, counted from 0.
#[tactic(auto, unfolding(crate::specs::Table::entry_at))]
pub(crate) fn entry_at(file: &[u8], n: usize) -> Entry
    requires { n * entry_size + entry_size ≤ length file.now }
    ensures { result ≡ entry_at file.now n }
{
    let at = n * ENTRY;
    Entry {
        kind: word_at(file, at),
        from: word_at(file, at + 4),
        size: word_at(file, at + 8),
    }
}
