// SPDX-License-Identifier: Apache-2.0
// All of a part but its companion: which supplies are present, where a transfer stands, the memory address, and what each
// event does to these. A part hands over the size of its memory, its select bits, the protection bits, and the companion's
// reply to what the event asks of it (`bus_deeds`).
//
// turns    the clocks of the bytes that serve the companion, given its reply
// clock    a Clock by phase
// event    one event under each supply
// select   the slave byte of a part with select bits
#![tactic(auto)]

use wire::Phase;

mod clock;
mod event;
pub mod select;
mod turns;

// Which supplies are present: main power; backup alone; none.
#[derive(Clone, Copy, Debug, PartialEq, Eq)]
pub enum Power {
    On,
    Backup,
    Off,
}

// A one-second tick, or an edge on one of the counter inputs.
#[derive(Clone, Copy, Debug, PartialEq, Eq)]
pub enum Beat {
    Second,
    Cnt1,
    Cnt2,
}

// A part without its memory, which the caller lends, and without its companion.
#[derive(Clone, Copy, Debug, PartialEq, Eq)]
pub struct Bus {
    pub power: Power,
    pub phase: Phase,
    pub address: u16,
}

// What the companion replies: whether it acknowledges the byte, and the byte that it sends.
// Stays (plain): the two answer different questions, of a byte from the master and of one to it, and neither is the other's flag.
#[derive(Clone, Copy, Debug, PartialEq, Eq)]
pub struct Reply {
    pub good: bool,
    pub byte: u8,
}

// What a part hands over with an event: the size of its memory, its select bits, the protection bits, and its companion's reply.
#[derive(Clone, Copy)]
pub(crate) struct Part {
    size: u16,
    select: u8,
    guard: u8,
    reply: Reply,
}

// What an event leaves: the next bus, and the line.
// Stays (plain): every event leaves both, whatever the line is.
#[derive(Clone, Copy, Debug, PartialEq, Eq)]
pub struct Went {
    pub bus: Bus,
    pub line: bool,
}
