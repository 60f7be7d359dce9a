// SPDX-License-Identifier: Apache-2.0
// Up to four devices of the larger family on one line.
//
// hear      one event on one device of a set
// event     one event on all of a set
#![tactic(auto)]

use fm31::{Size, State};

mod event;
mod hear;

// The devices that one line takes at most.
pub const MOST: u8 = 4;

// One device of a set, without its memory, which the caller lends: its size, its two select bits, its state.
#[derive(Clone, Copy)]
pub struct Member {
    pub size: Size,
    pub select: u8,
    pub state: State,
}

// A set: the first `count` of four devices; the others are not on the line, and stay as they are.
// Stays (fixed): four fields. `law_ensemble/proofs/Pulls.one_pulls` and its fellows hold of every set; an array is a list there, whose length each of
// them would have to ask for, and the memories beside it are four parameters of the C functions.
#[derive(Clone, Copy)]
pub struct Set {
    pub count: u8,
    pub first: Member,
    pub second: Member,
    pub third: Member,
    pub fourth: Member,
}

// What an event leaves of one device, and its line.
// Stays (plain): here and in the next a device stands beside its line, high or low.
#[derive(Clone, Copy)]
pub struct Heard {
    pub member: Member,
    pub line: bool,
}

// What an event leaves of a set, and the line.
#[derive(Clone, Copy)]
pub struct Happened {
    pub set: Set,
    pub line: bool,
}
