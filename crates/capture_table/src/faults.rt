// SPDX-License-Identifier: Apache-2.0
// The faults of an entry: by itself, and beside the entries before it.
ghost use Rattle.std.specs.Prelude.{◌≡◌, ◌+◌, ◌*◌, ◌≤◌, ◌<◌, length};
ghost use Rattle.capture_table.specs.Table.{overlap, kind_number, is_accepted, stands_in, clashes, clashes_below, is_sound, entry_size};
ghost use Rattle.capture_table.specs.Sections.{first_faulty};

use crate::entries::{ENTRY, entry_at};
use crate::{Entry, Kind};
use fm3130_accept::is_image;
use fm3130_image::MEMORY;
use fm3130_list::all_known;

// A stretch of bytes: where in the file it begins, and its length.
#[derive(Clone, Copy, Debug, PartialEq, Eq)]
struct Stretch {
    from: u32,
    size: u32,
}

// The bytes of the table.
const TABLE: Stretch = Stretch { from: 0, size: 48 };

impl Stretch {
    // The place after its last byte. The sum is exact: two numbers of 32 bits are added in 64.
    fn end(self) -> u64
        ensures { result ≡ self.from + self.size }
    {
        u64::from(self.from) + u64::from(self.size)
    }

    // Whether two stretches overlap. An empty one overlaps nothing.
    #[tactic(auto, unfolding(crate::specs::Table::overlap))]
    fn overlaps(self, other: Stretch) -> bool
        ensures { result ≡ overlap self.from self.size other.from other.size }
    {
        (0 < self.size)
            & (0 < other.size)
            & (u64::from(self.from) < other.end())
            & (u64::from(other.from) < self.end())
    }
}

impl Entry {
    // The section that it names.
    fn body(self) -> Stretch
        ensures { result ≡ record { from = self.from; size = self.size } }
    {
        Stretch {
            from: self.from,
            size: self.size,
        }
    }
}

// Whether a part of a kind is one that 01 accepts. Of answers there is nothing to refuse.
fn accepts(kind: Kind, body: &[u8]) -> bool
    ensures { result ≡ is_accepted (kind_number kind) body.now }
{
    match kind {
        Kind::Image => is_image(body),
        Kind::Memory => body.len() == MEMORY,
        Kind::Events => all_known(body),
        Kind::Answers => true,
    }
}

// Whether an entry is sound by itself.
fn stands(file: &[u8], entry: Entry) -> bool
    ensures { result ≡ stands_in file.now entry }
{
    let Ok(kind) = Kind::try_from(entry.kind) else {
        return false;
    };
    let from = entry.from as usize;
    let to = from + entry.size as usize;
    if file.len() < to {
        return false;
    }
    if TABLE.overlaps(entry.body()) {
        return false;
    }
    accepts(kind, &file[from..to])
}

// Whether an entry clashes with an earlier one: the kind once more, an overlap, or another count of events or answers.
#[tactic(auto, unfolding(crate::specs::Table::clashes))]
fn clash(entry: Entry, earlier: Entry) -> bool
    ensures { result ≡ clashes entry earlier }
{
    (entry.kind == earlier.kind)
        | earlier.body().overlaps(entry.body())
        | ((Kind::Events as u32 <= entry.kind)
            & (Kind::Events as u32 <= earlier.kind)
            & (entry.size != earlier.size))
}

// Whether an entry clashes with one of the first so many.
fn clash_below(file: &[u8], entry: Entry, n: usize) -> bool
    requires { n * entry_size ≤ length file.now }
    ensures { result ≡ clashes_below file.now entry n }
{
    for i in 0..n {
        if clash(entry, entry_at(file, i)) {
            return true;
        }
    }
    false
}

// Whether an entry of the table, counted from 0, is sound.
fn sound(file: &[u8], n: usize) -> bool
    requires { n < 4 }
    ensures { result ≡ is_sound file.now n }
{
    if file.len() < n * ENTRY + ENTRY {
        return false;
    }
    let entry = entry_at(file, n);
    stands(file, entry) && !clash_below(file, entry, n)
}

// The first faulty entry, 1 to 4; or none, where all four are sound.
pub fn first_faulty(file: &[u8]) -> Option<u8>
    ensures { result ≡ first_faulty file.now }
{
    for n in 0..4u8 {
        if !sound(file, usize::from(n)) {
            return Some(n + 1);
        }
    }
    None
}
