// SPDX-License-Identifier: Apache-2.0
// The proving record: which of eight lamps (crate `lamps_eight`) may be shown lit. It follows the device event by event, by value: the state
// before an event, the event, and what the device answered. So a host can keep it beside a device, or beside a recording.
//
// follow   the byte under way, and what an event is to the lamps
// entry    the record: one step for each event of the device, and the report
#![tactic(auto)]

use lamps_eight::Lamps;

mod entry;
mod follow;

// What the ninth clock of a byte is for: a lamp's value may be whole; nothing of ours; the device has to acknowledge.
#[derive(Clone, Copy, Debug, PartialEq, Eq)]
pub enum Due {
    Value,
    Silence,
    Acknowledge,
}

// The byte under way: whether it was refused at its eighth clock and still waits for its ninth; of a byte read from the
// memory the address at its first clock, and the line so far.
// Stays (plain): place and byte are kept of a refused byte too.
#[derive(Clone, Copy)]
pub struct Follower {
    pub refused: bool,
    pub place: u16,
    pub byte: u8,
}

// The record by value.
#[derive(Clone, Copy)]
pub struct Proving {
    pub follower: Follower,
    pub lamps: Lamps,
}
