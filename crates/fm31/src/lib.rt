// SPDX-License-Identifier: Apache-2.0
// The larger family, in its 64Kb and 256Kb sizes: supplies, transfers and memory are those of every part (crate `bus`),
// the companion is `fm31_counters`, and it does what an event asks of it by `bus_deeds`.
//
// step      one event byte, and the entry with its refusals
#![tactic(auto)]

use bus::Bus;
use fm31_counters::Counters;

pub mod step;

// The bytes of memory of the 64Kb part.
pub const KB64: u16 = 8192;

// The bytes of memory of the 256Kb part.
pub const KB256: u16 = 32768;

// The last event byte: 9, an edge on CNT2.
pub const LAST_EVENT: u8 = 9;

// The two sizes.
#[derive(Clone, Copy, PartialEq, Eq, Debug)]
pub enum Size {
    Kb64,
    Kb256,
}

// A device without its memory, which the caller lends.
#[derive(Clone, Copy)]
pub struct State {
    pub bus: Bus,
    pub counters: Counters,
}

// What an answered event leaves: the next state, and the answer byte.
#[derive(Clone, Copy)]
pub struct Answered {
    pub state: State,
    pub answer: u8,
}

// What the entry for one event returns: the number of the table, the next state, and the answer byte.
#[derive(Clone, Copy)]
pub struct Stepped {
    pub number: u8,
    pub state: State,
    pub answer: u8,
}
