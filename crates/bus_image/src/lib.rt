// SPDX-License-Identifier: Apache-2.0
// What the images of all parts have in common.
//
// bytes   bytes cleared, copied, compared
// layout  the supplies and the phase as numbers, and back; a bus at its places
// phases  these numbers
// places  where they lie
#![tactic(auto)]

pub mod bytes;
pub mod layout;
pub mod phases;
pub mod places;

// Where a transfer stands, as four bytes of an image: the phase's number, the clocks done, the byte, and the first
// address byte of a memory write whose second is under way.
#[derive(Clone, Copy, Debug, PartialEq, Eq)]
pub struct Transfer {
    pub phase: u8,
    pub clocks: u8,
    pub byte: u8,
    pub first: u8,
}
