// SPDX-License-Identifier: Apache-2.0
// The register map: each bit by its weight, in the data sheet's spelling; and the address after one.
ghost use Rattle.std.specs.Prelude.{◌≡◌, ◌≤◌};
ghost use Rattle.fm3130_registers.specs.Map.{LAST, next_address};

// The addresses that a rule names: 00h RTC/Alarm Control, 01h CAL/Control, 08h RTC Years (the last of the
// calendar's), 0Eh Alarm & WP Control (the last of all); and how many there are.
pub const CONTROL: u8 = 0;

pub const TRIM: u8 = 1;

pub const YEARS: u8 = 8;

pub const LAST: u8 = 14;

pub const COUNT: u8 = LAST + 1;

// 00h, high bit first.
pub const LB: u8 = 128;

pub const AF: u8 = 64;

pub const CF: u8 = 32;

pub const POR: u8 = 16;

pub const AEN: u8 = 8;

pub const CAL: u8 = 4;

pub const W: u8 = 2;

pub const R: u8 = 1;

// Bit 7 of 01h.
pub const OSCEN: u8 = 128;

// Bit 7 of 09h to 0Dh.
pub const MATCH: u8 = 128;

// Bits 7 and 3 of 0Eh; WP1 is the bit above WP0.
pub const ALSW: u8 = 128;

pub const WP0: u8 = 8;

// The address after one: from 0Eh back to 00h.
// Stays (plain): the memory's is of another width and the larger family's goes back to 09h; each is one line.
pub fn next_address(address: u8) -> u8
    requires { address ≤ LAST }
    ensures { result ≡ next_address address }
{
    (address + 1) % COUNT
}
