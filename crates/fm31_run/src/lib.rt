// SPDX-License-Identifier: Apache-2.0
// A list of events on a device of the larger family, alone or among others on one line: one device record stays in the loop and is
// changed in place.
//
// hear   one event on a device in its seat
// step   the same on a record that is lent
// list   a list of events on a device in its seat
// run    a list of events on a device alone
#![tactic(auto)]

pub mod hear;
pub mod list;
pub mod run;
mod step;

// Where a device sits on its line: the bytes of its memory, its two select bits, and its place, 0 to 3, among the devices. One
// that is alone sits at the first.
#[derive(Clone, Copy)]
pub struct Seat {
    pub size: u16,
    pub select: u8,
    pub place: u8,
}
