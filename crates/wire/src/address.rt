// SPDX-License-Identifier: Apache-2.0
// Memory addresses, over the memory's size, and the clocks of the second address byte, which takes one.
ghost use Rattle.std.specs.Prelude.{◌≡◌, List, ℕ, ◌<◌};
ghost use Rattle.wire.specs.Clock.{received};
ghost use Rattle.wire.specs.Kinds.{low_byte};
ghost use Rattle.wire.specs.Memory.{lent, joined, next, pointed};
ghost use Rattle.wire.specs.Code.Outcome.{with_address, moved_of};

use crate::between::awaiting;
use crate::bits::push;
use crate::nine::{count, receive};
use crate::{Moved, Phase, Side, Turned};

// The address that two address bytes give: bits above the size are ignored.
fn join(size: u16, high: u8, low: u8) -> u16
    requires { 0 < size }
    ensures { result ≡ joined size high low }
{
    u16::from_be_bytes([high, low]) % size
}

// The address after one, back to 0 after the last.
pub(crate) fn next_address(size: u16, address: u16) -> u16
    requires { address < size }
    ensures { result ≡ next size address }
{
    (address + 1) % size
}

impl Turned {
    // What the clock leaves, with the memory address beside it.
    pub(crate) fn with_address(self, address: u16) -> Moved
        ensures { result ≡ with_address self address }
    {
        let Turned { phase, line } = self;
        Moved {
            phase,
            address,
            line,
        }
    }
}

// A Clock in the second address byte of a memory write.
pub fn low_clock(size: u16, address: u16, upper: u8, clocks: u8, byte: u8, high: bool) -> Moved
    requires { 0 < size }
    ensures { (m : List ℕ) → result ≡ moved_of (received (low_byte (pointed size) upper) (lent m address) clocks byte high) }
{
    let low = push(byte, high);
    let next = Phase::AddressLow {
        high: upper,
        clocks: count(clocks),
        byte: low,
    };
    let turned = receive(clocks, high, next, true, awaiting(Side::Memory));
    if clocks == 7 {
        return turned.with_address(join(size, upper, low));
    }
    turned.with_address(address)
}
