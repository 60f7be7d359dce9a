// SPDX-License-Identifier: Apache-2.0
// Eight lamps along a log of what events were to them, free of any device: specs/Lit says when one is lit.
//
// lit   the lamps after one more line of the log, and the report
#![tactic(auto)]

mod lit;

// What an event is to the lamps: the bus failed; a Stop; a tick; the ninth clock of a byte read from the memory, with its
// address and what the line showed; nothing.
#[derive(Clone, Copy)]
pub enum Mark {
    Failed,
    Ended,
    Ticked,
    Gave { address: u16, value: u8 },
    Other,
}

// A lamp: what the transaction under way gave (0 nothing, 1 lit, 2 dark), and for how many ticks it is still lit.
#[derive(Clone, Copy)]
pub struct Lamp {
    // Stays (fixed): a number, since `Lamps::next`, `Proving::step` and `lamps_bytes::read` take and give lamps of any byte, which an enum would shut out
    pub held: u8,
    pub left: u8,
}

// The lamps of the bytes at 1000h to 1007h.
// Stays (fixed): `KeptBytes` speaks of every record, and eight lamps in an array are in `specs` a list of any length
#[derive(Clone, Copy)]
pub struct Lamps {
    pub zero: Lamp,
    pub one: Lamp,
    pub two: Lamp,
    pub three: Lamp,
    pub four: Lamp,
    pub five: Lamp,
    pub six: Lamp,
    pub seven: Lamp,
}
