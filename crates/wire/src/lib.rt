// SPDX-License-Identifier: Apache-2.0
// The two-wire engine, free of any chip: where a transfer stands, the bits of a byte, what a slave byte names,
// and what a clock does in the phases that touch nothing but the memory.
//
// bits      one byte, bit by bit, high bit first
// between   how a transfer goes on or ends between two bytes
// nine      the nine clocks of a byte from the master, and of a byte to it
// slave     the slave byte: whom it names, and the phase it opens; the first address byte
// address   memory addresses, and the byte that takes one
// storing   data bytes for the memory, and its protection
// fetching  data bytes from the memory
#![tactic(auto)]

pub mod address;
mod between;
pub mod bits;
pub mod fetching;
pub mod nine;
pub mod slave;
pub mod storing;

// The two devices in one part.
#[derive(Clone, Copy, Debug, PartialEq, Eq)]
pub enum Side {
    Memory,
    Companion,
}

// Where a transfer stands: which byte is under way, and how many of its clocks, 0 to 8, are done.
// An ended or refused transfer is Idle, so nothing of it is kept.
#[derive(Clone, Copy, Debug, PartialEq, Eq)]
pub enum Phase {
    // no transfer, or one that has ended
    Idle,
    // the slave byte
    Slave { clocks: u8, byte: u8 },
    // the two address bytes of a memory write; the second remembers the first
    AddressHigh { clocks: u8, byte: u8 },
    AddressLow { high: u8, clocks: u8, byte: u8 },
    // the address byte of a companion write
    Pointer { clocks: u8, byte: u8 },
    // a data byte from the master
    Write { side: Side, clocks: u8, byte: u8 },
    // a data byte to the master, fixed at its first clock
    Read { side: Side, clocks: u8, byte: u8 },
}

// Whom a complete slave byte names, and for what.
#[derive(Clone, Copy, Debug, PartialEq, Eq)]
pub enum Named {
    Nobody,
    Reads(Side),
    Writes(Side),
}

// What a clock leaves where no device is touched: the next phase, and the line.
// Stays (plain): here and in the two below a flag stands beside a value that means something whatever the flag says.
#[derive(Clone, Copy, Debug, PartialEq, Eq)]
pub struct Turned {
    pub phase: Phase,
    pub line: bool,
}

// What a clock that serves the memory leaves: the next phase, the memory address, and the line.
#[derive(Clone, Copy, Debug, PartialEq, Eq)]
pub struct Moved {
    pub phase: Phase,
    pub address: u16,
    pub line: bool,
}

// What a whole data byte for the memory leaves: the memory address, and whether the byte is acknowledged.
#[derive(Clone, Copy, Debug, PartialEq, Eq)]
pub struct Put {
    pub address: u16,
    pub acknowledged: bool,
}
