// SPDX-License-Identifier: Apache-2.0
// One byte on the wire, bit by bit, high bit first.
ghost use Rattle.std.specs.Prelude.{◌≡◌, ◌≤◌, ◌&&◌};
ghost use Rattle.wire.specs.Bits.{pushed, sent_bit};

// A byte with one more bit at its low end; the remainder keeps it a byte whatever came before.
pub fn push(byte: u8, high: bool) -> u8
    ensures { result ≡ pushed byte high }
{
    byte % 128 * 2 + u8::from(high)
}

// The bit of a byte that goes out when so many of its clocks are done.
pub fn sent_bit(byte: u8, clocks: u8) -> bool
    requires { clocks ≤ 7 }
    ensures { result ≡ sent_bit clocks byte }
{
    (byte >> (7 - clocks)) % 2 == 1
}

// The line while the device sends that bit: low if the master or the device pulls it low.
pub fn sending_line(byte: u8, clocks: u8, high: bool) -> bool
    requires { clocks ≤ 7 }
    ensures { result ≡ (high && sent_bit clocks byte) }
{
    high & sent_bit(byte, clocks)
}
