// SPDX-License-Identifier: Apache-2.0
// Who holds a bus that two masters share.
//
// bus_byte   the lent byte that says it, what a master may do with the bus, and when a list of events frees it
#![tactic(auto)]

pub mod bus_byte;

// The rig's own controller, and the maintainer's handheld, each with its number.
#[derive(Clone, Copy, Debug, PartialEq, Eq)]
pub enum Master {
    Rig = 1,
    Handheld = 2,
}

// What the lent byte and a master's number say: who holds the bus, if anybody does, and who speaks.
#[derive(Clone, Copy, Debug, PartialEq, Eq)]
pub struct Standing {
    pub holder: Option<Master>,
    pub master: Master,
}
