// SPDX-License-Identifier: Apache-2.0
// Data bytes for the memory: the write protection, the store, and the clocks of such a byte. Over the memory's size.
ghost use Rattle.std.specs.Prelude.{◌≡◌, ◌<◌, length};
ghost use Rattle.wire.specs.Clock.{received};
ghost use Rattle.wire.specs.Kinds.{memory_byte};
ghost use Rattle.wire.specs.Memory.{lent, protected_below, is_protected, put_byte};
ghost use Rattle.wire.specs.Code.Outcome.{MovedWith, PutWith};

use crate::address::next_address;
use crate::between::awaiting;
use crate::bits::push;
use crate::nine::{count, receive};
use crate::{Moved, Phase, Put, Side};

// The first address that the protection bits WP1 WP0, as a number, leave free.
fn protected_below(size: u16, guard: u8) -> u16
    ensures { result ≡ protected_below size guard }
{
    match guard {
        0 => 0,
        1 => size / 4,
        2 => size / 2,
        _ => size,
    }
}

// Whether a data byte for an address is refused.
pub fn is_protected(size: u16, guard: u8, address: u16) -> bool
    ensures { result ≡ is_protected size guard address }
{
    address < protected_below(size, guard)
}

// A whole data byte for the memory: stored, or refused where the address is protected; either way the address steps on.
fn put(memory: &mut [u8], size: u16, guard: u8, address: u16, byte: u8) -> Put
    requires { (length memory.old ≡ size) × (address < size) }
    ensures { PutWith result memory.new (put_byte size guard (lent memory.old address) byte) }
{
    let acknowledged = !is_protected(size, guard, address);
    if acknowledged {
        memory[address as usize] = byte;
    }
    Put {
        address: next_address(size, address),
        acknowledged,
    }
}

// A Clock in a data byte from the master.
pub fn put_clock(
    memory: &mut [u8],
    size: u16,
    guard: u8,
    address: u16,
    clocks: u8,
    byte: u8,
    high: bool,
) -> Moved
    requires { (length memory.old ≡ size) × (address < size) }
    ensures { MovedWith result memory.new (received (memory_byte (put_byte size guard)) (lent memory.old address) clocks byte high) }
{
    let whole = push(byte, high);
    let next = Phase::Write {
        side: Side::Memory,
        clocks: count(clocks),
        byte: whole,
    };
    let after = awaiting(Side::Memory);
    if clocks == 7 {
        let done = put(memory, size, guard, address, whole);
        let turned = receive(clocks, high, next, done.acknowledged, after);
        return turned.with_address(done.address);
    }
    let turned = receive(clocks, high, next, true, after);
    turned.with_address(address)
}
