// SPDX-License-Identifier: Apache-2.0
// A token and what is due in one word, for C. From bit 0 on: seven bits for the levels, the pulse, what SDA does and the
// lines; from bit 8 on four bits for what waits and four for the answer; from bit 16 on a byte for the number; from bit 24
// on four bits for each of the three events. No event is 0 there, so that nothing is due where all of them are 0. All that
// a look has to do with lies in the low 32 bits.
ghost use Rattle.std.specs.Prelude.{◌≡◌, cond, ◌≤◌, ◌%◌, ◌/◌};
ghost use Rattle.pins_levels.specs.Packed.{packed, unpacked, levels_of, four_bits, event_in};

use crate::{Due, Seen, Token, read};

// The bits of a token.
fn bits(t: Token) -> u64
    ensures { (result ≡ Rattle.pins_levels.specs.Packed.bits_of t) × (result ≤ 127) }
{
    u64::from(t.scl)
        + 2 * u64::from(t.sda)
        + 4 * u64::from(t.pulse)
        + 8 * u64::from(t.pulling)
        + 16 * u64::from(t.next)
        + 32 * u64::from(t.low)
        + 64 * u64::from(t.high)
}

// An event in four bits: none of them is 0.
fn four_bits(event: u8) -> u64
    ensures { (result ≡ four_bits event) × (result ≤ 15) }
{
    (u64::from(event) + 8) % 16
}

#[tactic(auto, unfolding(crate::specs::Packed::packed))]
pub fn pack(d: Due) -> u64
    ensures { result ≡ packed d }
{
    let t = d.token;
    bits(t)
        + four_bits(t.waiting) * 0x100
        + u64::from(t.answer) * 0x1000
        + u64::from(t.number) * 0x10000
        + four_bits(d.first) * 0x1000000
        + four_bits(d.second) * 0x10000000
        + four_bits(d.third) * 0x100000000
}

// The event in the lowest four bits.
fn event(n: u64) -> u8
    ensures { result ≡ event_in n }
{
    ((n % 16 + 8) % 16) as u8
}

#[tactic(auto, unfolding(crate::specs::Packed::unpacked))]
pub fn unpack(n: u64) -> Due
    ensures { result ≡ unpacked n }
{
    let token = Token {
        scl: n % 2 == 1,
        sda: n / 2 % 2 == 1,
        pulse: n / 4 % 2 == 1,
        pulling: n / 8 % 2 == 1,
        next: n / 16 % 2 == 1,
        low: n / 32 % 2 == 1,
        high: n / 64 % 2 == 1,
        waiting: event(n / 0x100),
        number: (n / 0x10000 % 256) as u8,
        answer: (n / 0x1000 % 16) as u8,
    };
    Due {
        token,
        first: event(n / 0x1000000),
        second: event(n / 0x10000000),
        third: event(n / 0x100000000),
    }
}

// Three readings in one number: SCL, SDA, SCL again.
pub fn levels(n: u64) -> Seen
    ensures { result ≡ levels_of n }
{
    read(n % 2 == 1, n / 2 % 2 == 1, n / 4 % 2 == 1)
}
