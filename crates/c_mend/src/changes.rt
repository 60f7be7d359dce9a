// SPDX-License-Identifier: Apache-2.0
// The list of what was changed: three bytes for each register, its number, the old byte and the new one.
ghost use Rattle.std.specs.Prelude.{◌≡◌, ◌+◌, ◌≤◌, ◌==◌, not, count_by, length, zip};
ghost use Rattle.c_mend.specs.Changes.{change_of, changes_from};
ghost use Rattle.c_mend.specs.Code.Changes.{WrittenAt};

use bus_image::bytes::copy;

// Writes the three bytes of a register at a place, where its byte changed; returns the place after them.
// Stays (C): fm3130_mend is lent one buffer for a list whose length is known only at its end.
fn note(changes: &mut [u8], at: usize, number: u8, old: u8, new: u8) -> usize
    requires { at + length (change_of number old new) ≤ length changes.old }
    ensures { WrittenAt (change_of number old new) at changes.old result changes.new }
{
    if old == new {
        return at;
    }
    let end = at + 3;
    copy(&[number, old, new], &mut changes[at..end]);
    end
}

// Writes the list of those registers, from 02h on, in which two lists of bytes differ; returns how many bytes it has.
pub(crate) fn write_changes(before: &[u8; 7], after: &[u8; 7], changes: &mut [u8]) -> usize
    requires { length (changes_from 2 before.now after.now) ≤ length changes.old }
    ensures { WrittenAt (changes_from 2 before.now after.now) 0
        changes.old result changes.new }
{
    let mut at = 0;
    for (i, &old) in before.iter().enumerate() {
        at = note(changes, at, i as u8 + 2, old, after[i]);
    }
    at
}

// In how many places two lists of bytes differ.
// A loop, which is laid out seven times in a row; `filter` and `count` are not, and cost the entry a fifth more.
pub(crate) fn count_changes(before: &[u8; 7], after: &[u8; 7]) -> usize
    ensures { result ≡ count_by (λ p. not (p.0 == p.1)) (zip before.now after.now) }
{
    let mut count = 0;
    for (i, &old) in before.iter().enumerate() {
        if old != after[i] {
            count += 1;
        }
    }
    count
}
