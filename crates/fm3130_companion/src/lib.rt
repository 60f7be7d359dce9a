// SPDX-License-Identifier: Apache-2.0
// The companion of the FM3130: fifteen registers, the calendar core behind them, and the address of the next byte. It
// knows nothing of transfers or memory: a device hands it whole bytes, ticks and power events, and asks it for bytes, the
// pin and the protection. Every method takes the companion by value and returns the next one.
//
//   access.rt    the registers by address
//   write.rt     a data byte by its address
//   tick.rt      a one-second tick: the core, the alarm, the flags
//   pin.rt       the ACS pin, and the protection of memory
//   power.rt     what the loss of both supplies leaves
//   limits.rt    the limits of a state
//   part.rt      all that an event asks of it: the bytes of a transfer, a tick, power lost and returned
#![tactic(auto)]

use calendar::{Calendar, Rolled};

mod access;
mod limits;
mod part;
mod pin;
mod power;
mod tick;
mod write;

// Registers 09h to 0Dh. Bit 7 of each is Match: 1 leaves the field out of the comparison.
#[derive(Clone, Copy)]
pub struct Alarm {
    pub seconds: u8,
    pub minutes: u8,
    pub hours: u8,
    pub date: u8,
    pub month: u8,
}

// Registers 00h to 0Eh: 00h, 01h, 02h to 08h, 09h to 0Dh, 0Eh.
#[derive(Clone, Copy)]
pub struct Registers {
    pub control: u8,
    pub trim: u8,
    pub time: Calendar,
    pub alarm: Alarm,
    pub setup: u8,
}

// The registers, the calendar that counts the seconds, and the companion's own address.
#[derive(Clone, Copy)]
pub struct Companion {
    pub registers: Registers,
    pub core: Calendar,
    pub address: u8,
}

// What a tick leaves, and the highest field of the core that it changed.
#[derive(Clone, Copy)]
pub struct Ticked {
    pub companion: Companion,
    pub rolled: Rolled,
}
