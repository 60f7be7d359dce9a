// SPDX-License-Identifier: Apache-2.0
// The nine clocks of a byte: one function for a byte from the master, one for a byte to it. A kind of byte hands over what
// it does at its ends, and these say at which clock that counts.
ghost use Rattle.std.specs.Prelude.{◌≡◌, cond, ℕ, ◌+◌, ltb};
ghost use Rattle.wire.specs.Clock.{received, sent};
ghost use Rattle.wire.specs.Code.Outcome.{turned_of, incoming, outgoing};

use crate::between::{go_on, keep, sending};
use crate::bits::sending_line;
use crate::{Phase, Side, Turned};

// The clocks of a byte that are done after one more: after its ninth, none of the byte that follows.
pub fn count(clocks: u8) -> u8
    ensures { result ≡ cond (ltb clocks 8) (clocks + 1) 0 }
{
    if clocks < 8 { clocks + 1 } else { 0 }
}

// A Clock in a byte from the master. `next` is the byte's phase with this clock and its bit, `good` whether the whole byte
// is acknowledged, `after` the phase that its acknowledge leads to.
pub fn receive(clocks: u8, high: bool, next: Phase, good: bool, after: Phase) -> Turned
    ensures { (b : ℕ) → result ≡ turned_of (received (incoming next good after) tt clocks b high) }
{
    let (phase, line) = match clocks {
        0..=6 => (next, high),
        7 => (keep(good, next), high),
        _ => (after, false),
    };
    Turned { phase, line }
}

// A Clock in a byte to the master. `first` is the byte at the current address: it is fixed at the first clock.
pub fn send(side: Side, first: u8, clocks: u8, byte: u8, high: bool) -> Turned
    ensures { result ≡ turned_of (sent (outgoing side first) tt clocks byte high) }
{
    if clocks > 7 {
        return Turned {
            phase: go_on(high, sending(side, 0, 0)),
            line: high,
        };
    }
    let fixed = if clocks == 0 { first } else { byte };
    Turned {
        phase: sending(side, clocks + 1, fixed),
        line: sending_line(fixed, clocks, high),
    }
}
