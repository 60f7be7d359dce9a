// SPDX-License-Identifier: Apache-2.0
// Judging a capture: a recording of events and answers, with the image and the memory that it began from.
//
// replay     the recorded events, in stretches, beside the recorded answers
// judge      the verdict, its figures, and the entry for C
#![tactic(auto)]

pub mod judge;
mod replay;

// What is said of a capture: how many answers agree; the first that differs, with the recorded and the right byte; the
// first faulty entry, 1 to 4; or that the file is too long.
#[derive(Clone, Copy, Debug, PartialEq, Eq)]
pub enum Verdict {
    Agree(usize),
    Differs {
        place: usize,
        recorded: u8,
        right: u8,
    },
    Faulty(u8),
    TooLong,
}

// A verdict in figures: its number; the count, the place or the entry; and the two bytes of an answer that differs.
#[derive(Clone, Copy, Debug, PartialEq, Eq)]
pub struct Figures {
    pub number: u64,
    pub place: u64,
    pub recorded: u8,
    pub right: u8,
}

// What C is told: a verdict's number and place.
#[repr(C)]
#[derive(Clone, Copy, Debug, PartialEq, Eq)]
pub struct Judgement {
    pub number: u64,
    pub place: u64,
}
