// SPDX-License-Identifier: Apache-2.0
// Which bits of a byte each register from 01h on keeps. A write of 00h has rules of its own.
ghost use Rattle.std.specs.Prelude.{◌≡◌, ◌<◌, ◌≤◌};
ghost use Rattle.fm3130_registers.specs.Map.{TRIM, LAST};
ghost use Rattle.fm3130_registers.specs.Stored.{top_and_below, stored_at, trim_after};

use crate::map::CAL;
use bits::has;

// Bit 7 of a byte and its bits below a span, a power of two: those between are 0.
fn top_and_below(span: u8, byte: u8) -> u8
    requires { (0 < span) × (span ≤ 128) }
    ensures { result ≡ top_and_below span byte }
{
    byte / 128 * 128 + byte % span
}

// What the register at an address from 02h on keeps of a byte.
pub fn stored(address: u8, byte: u8) -> u8
    requires { (TRIM < address) × (address ≤ LAST) }
    ensures { result ≡ stored_at address byte }
{
    match address {
        2 | 3 => byte % 128,
        4 | 6 => byte % 64,
        5 => byte % 8,
        7 => byte % 32,
        9 | 10 => top_and_below(128, byte),
        11 | 12 => top_and_below(64, byte),
        13 => top_and_below(32, byte),
        _ => byte,
    }
}

// 01h after a write: OSCEN is taken, bit 6 is 0, the last six bits are taken only with CAL at 1.
pub fn trim_after(control: u8, old: u8, byte: u8) -> u8
    ensures { result ≡ trim_after control old byte }
{
    let taken = if has(control, CAL) { byte } else { old };
    byte / 128 * 128 + taken % 64
}
