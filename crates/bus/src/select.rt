// SPDX-License-Identifier: Apache-2.0
// The slave byte of a part with select bits. Its bits 2 and 1 must be the part's; the byte without them is the FM3130's.
ghost use Rattle.std.specs.Prelude.{◌≡◌};
ghost use Rattle.wire.specs.Clock.{received};
ghost use Rattle.wire.specs.Kinds.{slave_byte};
ghost use Rattle.wire.specs.Code.Outcome.{turned_of};
ghost use Rattle.bus.specs.Select.{slave_names_for};

use wire::bits::push;
use wire::nine::{count, receive};
use wire::slave::{answers, opened, slave_names};
use wire::{Named, Phase, Turned};

// The select bits of a part that is alone on its line: its slave bytes are those of 01.
pub const LONE: u8 = 0;

// Whom a slave byte names: 1010 0ssx the memory, 1101 0ssx the companion, where ss are the part's select bits.
pub fn names_for(select: u8, byte: u8) -> Named
    ensures { result ≡ slave_names_for select byte }
{
    let chosen = byte / 2 % 4;
    if chosen == select {
        return slave_names(byte - 2 * chosen);
    }
    Named::Nobody
}

// A Clock in a slave byte: it is acknowledged where it names somebody, and its acknowledge opens what it names. Whom it
// names is looked up once it is whole.
pub(crate) fn select_clock(select: u8, clocks: u8, byte: u8, high: bool) -> Turned
    ensures { result ≡ turned_of (received (slave_byte (slave_names_for select)) tt clocks byte high) }
{
    let whole = push(byte, high);
    let next = Phase::Slave {
        clocks: count(clocks),
        byte: whole,
    };
    if clocks < 7 {
        return receive(clocks, high, next, true, Phase::Idle);
    }
    let good = answers(names_for(select, whole));
    let after = opened(names_for(select, byte));
    receive(clocks, high, next, good, after)
}
