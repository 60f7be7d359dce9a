// SPDX-License-Identifier: Apache-2.0
// The register map 09h to 18h, in the data sheet's spelling.

// The addresses that a rule names: 09h Watchdog Restart/Flags (the first of all), 0Ch Event Count Control, 10h Event
// Counter 2 MSB, 11h Serial Number 0, 18h Serial Number 7 (the last of all); and how many there are.
pub const FIRST: u8 = 9;

pub const COUNTING: u8 = 12;

pub const TOP: u8 = 16;

pub const SERIAL: u8 = 17;

pub const LAST: u8 = 24;

pub const COUNT: u8 = LAST - FIRST + 1;

// 09h, bits 7 to 5.
pub const WTR: u8 = 128;

pub const POR: u8 = 64;

pub const LB: u8 = 32;

// 0Bh, bits 7 and 3; WP1 is the bit above WP0.
pub const SNL: u8 = 128;

pub const WP0: u8 = 8;

// 0Ch, bits 3 and 2.
pub const RC: u8 = 8;

pub const CC: u8 = 4;
