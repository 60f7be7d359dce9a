// SPDX-License-Identifier: Apache-2.0
// The proving record as 20 bytes of the caller's: 0 refused; 1 and 2 the address, high byte first; 3 the byte so far; then of each
// lamp what the transaction gave and the ticks left.
#![tactic(auto)]

ghost use Rattle.std.specs.Prelude.{◌≡◌, ◌<◌, length};
ghost use Rattle.lamps_bytes.specs.Kept.{lamp_in, lamps_in, kept_of, bytes_of, lamp_fits, lamps_fit, is_kept};

use bus_image::bytes::copy;
use lamps::{Follower, Proving};
use lamps_eight::{Lamp, Lamps};

// The bytes of a record.
pub const RECORD: usize = 20;

// The lamp in two bytes from a place on.
fn lamp_in(kept: &[u8], at: usize) -> Lamp
    requires { (length kept.now ≡ 20) × (at < 19) }
    ensures { result ≡ lamp_in kept.now at }
{
    Lamp {
        held: kept[at],
        left: kept[at + 1],
    }
}

// The eight lamps, from byte 4 on.
fn lamps_in(kept: &[u8]) -> Lamps
    requires { length kept.now ≡ 20 }
    ensures { result ≡ lamps_in kept.now }
{
    Lamps {
        zero: lamp_in(kept, 4),
        one: lamp_in(kept, 6),
        two: lamp_in(kept, 8),
        three: lamp_in(kept, 10),
        four: lamp_in(kept, 12),
        five: lamp_in(kept, 14),
        six: lamp_in(kept, 16),
        seven: lamp_in(kept, 18),
    }
}

// The record that 20 bytes hold.
#[tactic(auto, unfolding(crate::specs::Kept::kept_of))]
pub fn read(kept: &[u8]) -> Proving
    requires { length kept.now ≡ 20 }
    ensures { result ≡ kept_of kept.now }
{
    let follower = Follower {
        refused: kept[0] == 1,
        place: u16::from_be_bytes([kept[1], kept[2]]),
        byte: kept[3],
    };
    let lamps = lamps_in(kept);
    Proving { follower, lamps }
}

// A transaction gave nothing, 1, or something else; at most three ticks are left.
// Stays (speed): `&`, here and in the two below, has all bytes tested at once, `&&` one by one.
fn lamp_fits(lamp: Lamp) -> bool
    ensures { result ≡ lamp_fits lamp }
{
    (lamp.held <= 2) & (lamp.left <= 3)
}

// All eight.
fn lamps_fit(lamps: Lamps) -> bool
    ensures { result ≡ lamps_fit lamps }
{
    lamp_fits(lamps.zero)
        & lamp_fits(lamps.one)
        & lamp_fits(lamps.two)
        & lamp_fits(lamps.three)
        & lamp_fits(lamps.four)
        & lamp_fits(lamps.five)
        & lamp_fits(lamps.six)
        & lamp_fits(lamps.seven)
}

// Whether the bytes hold a record.
#[tactic(auto, unfolding(crate::specs::Kept::is_kept))]
pub fn is_kept(kept: &[u8]) -> bool
    ensures { result ≡ is_kept kept.now }
{
    kept.len() == RECORD && (kept[0] <= 1) & (kept[1] <= 31) & lamps_fit(lamps_in(kept))
}

// The bytes of a record.
#[tactic(auto, unfolding(crate::specs::Kept::bytes_of))]
fn bytes_of(proving: Proving) -> [u8; RECORD]
    ensures { result ≡ bytes_of proving }
{
    let Proving { follower, lamps } = proving;
    let [high, low] = follower.place.to_be_bytes();
    [
        u8::from(follower.refused),
        high,
        low,
        follower.byte,
        lamps.zero.held,
        lamps.zero.left,
        lamps.one.held,
        lamps.one.left,
        lamps.two.held,
        lamps.two.left,
        lamps.three.held,
        lamps.three.left,
        lamps.four.held,
        lamps.four.left,
        lamps.five.held,
        lamps.five.left,
        lamps.six.held,
        lamps.six.left,
        lamps.seven.held,
        lamps.seven.left,
    ]
}

// Writes a record's bytes over a buffer of 20.
pub fn write(proving: Proving, kept: &mut [u8])
    requires { length kept.old ≡ 20 }
    ensures { kept.new ≡ bytes_of proving }
{
    copy(&bytes_of(proving), kept);
}
