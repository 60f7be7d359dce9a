// SPDX-License-Identifier: Apache-2.0
// The slave byte: whom it names, and the phase that its acknowledge opens; and the first address byte of a memory write,
// which touches no device either.
ghost use Rattle.std.specs.Prelude.{◌≡◌};
ghost use Rattle.wire.specs.Slave.{slave_names, answers, opened};
ghost use Rattle.wire.specs.Clock.{received};
ghost use Rattle.wire.specs.Kinds.{high_byte};
ghost use Rattle.wire.specs.Code.Outcome.{turned_of};

use crate::between::sending;
use crate::bits::push;
use crate::nine::{count, receive};
use crate::{Named, Phase, Side, Turned};

// Whom a slave byte names: 1010 000x the memory, 1101 000x the companion; x = 1 reads.
pub fn slave_names(byte: u8) -> Named
    ensures { result ≡ slave_names byte }
{
    match byte {
        0xA0 => Named::Writes(Side::Memory),
        0xA1 => Named::Reads(Side::Memory),
        0xD0 => Named::Writes(Side::Companion),
        0xD1 => Named::Reads(Side::Companion),
        _ => Named::Nobody,
    }
}

// Whether a slave byte that names so is acknowledged.
pub fn answers(named: Named) -> bool
    ensures { result ≡ answers named }
{
    !matches!(named, Named::Nobody)
}

// The phase after the acknowledge of a slave byte that names so.
pub fn opened(named: Named) -> Phase
    ensures { result ≡ opened named }
{
    match named {
        Named::Nobody => Phase::Idle,
        Named::Reads(side) => sending(side, 0, 0),
        Named::Writes(Side::Memory) => Phase::AddressHigh { clocks: 0, byte: 0 },
        Named::Writes(Side::Companion) => Phase::Pointer { clocks: 0, byte: 0 },
    }
}

// A Clock in the first address byte of a memory write.
pub fn high_clock(clocks: u8, byte: u8, high: bool) -> Turned
    ensures { result ≡ turned_of (received high_byte tt clocks byte high) }
{
    let next = Phase::AddressHigh {
        clocks: count(clocks),
        byte: push(byte, high),
    };
    let after = Phase::AddressLow {
        high: byte,
        clocks: 0,
        byte: 0,
    };
    receive(clocks, high, next, true, after)
}
