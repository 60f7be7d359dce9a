// SPDX-License-Identifier: Apache-2.0
// Events laid into a lent buffer, one after another. Each function returns the place after what it laid.
//
// Stays (fixed): `Laid` has buffer and place apart, in lay_byte, lay_event, lay_opening, lay_written, lay_asked, all public.
ghost use Rattle.std.specs.Prelude.{◌≡◌, [], ◌∷◌, ◌+◌, ◌*◌, ◌<◌, ◌≤◌, length};
ghost use Rattle.wire_clocks.specs.Clocks.{clock_event, nine_clocks};
ghost use Rattle.wire_clocks.specs.Events.{opening, all_written, asked_on};
ghost use Rattle.wire_clocks.specs.Code.Laid.{Laid};

use std::array::from_fn;
use wire::bits::sending_line;

// The events of the wire.
pub const START: u8 = 0;

pub const STOP: u8 = 1;

const CLOCK_LOW: u8 = 2;

const CLOCK_HIGH: u8 = 3;

// The slave bytes of the memory.
const WRITE_MEMORY: u8 = 0xA0;

pub const READ_MEMORY: u8 = 0xA1;

// What a master sends while the device sends: it leaves the line high.
pub const LEFT_HIGH: u8 = 0xFF;

// The event of a Clock.
fn clock(high: bool) -> u8
    ensures { result ≡ clock_event high }
{
    if high { CLOCK_HIGH } else { CLOCK_LOW }
}

// The nine Clocks of a byte, high bit first, and of its acknowledge.
fn nine_clocks(byte: u8, ninth: bool) -> [u8; 9]
    ensures { result ≡ nine_clocks byte ninth }
{
    from_fn(|done| {
        let high = if done < 8 {
            sending_line(byte, done as u8, true)
        } else {
            ninth
        };
        clock(high)
    })
}

// A list of events.
// Stays (speed): one by one, so that the Clocks of a byte go straight into the buffer; `copy_from_slice` has them laid on the stack first.
fn lay(from: &[u8], events: &mut [u8], at: usize) -> usize
    requires { at + length from.now ≤ length events.old }
    ensures { Laid events.old at from.now result events.new }
{
    for i in 0..from.len() {
        events[at + i] = from[i];
    }
    at + from.len()
}

// A byte, with the master's line at its ninth clock.
pub fn lay_byte(byte: u8, ninth: bool, events: &mut [u8], at: usize) -> usize
    requires { at + 9 ≤ length events.old }
    ensures { Laid events.old at (nine_clocks byte ninth) result events.new }
{
    let clocks = nine_clocks(byte, ninth);
    lay(&clocks, events, at)
}

// One event.
pub fn lay_event(event: u8, events: &mut [u8], at: usize) -> usize
    requires { at < length events.old }
    ensures { Laid events.old at (event ∷ []) result events.new }
{
    events[at] = event;
    at + 1
}

// Start, the slave byte of a memory write, and the address, at the front of the buffer.
pub fn lay_opening(address: u16, events: &mut [u8]) -> usize
    requires { 28 ≤ length events.old }
    ensures { Laid events.old 0 (opening address) result events.new }
{
    let started = lay_event(START, events, 0);
    let named = lay_byte(WRITE_MEMORY, true, events, started);
    let [high, low] = address.to_be_bytes();
    let half = lay_byte(high, true, events, named);
    lay_byte(low, true, events, half)
}

// Data bytes that are written. At each ninth clock the line is left to the device.
pub fn lay_written(bytes: &[u8], events: &mut [u8], at: usize) -> usize
    requires { at + 9 * length bytes.now ≤ length events.old }
    ensures { Laid events.old at (all_written bytes.now) result events.new }
{
    let mut place = at;
    for byte in bytes {
        place = lay_byte(*byte, true, events, place);
    }
    place
}

// Data bytes that are read, after each of which the read goes on.
pub fn lay_asked(count: usize, events: &mut [u8], at: usize) -> usize
    requires { at + 9 * count ≤ length events.old }
    ensures { Laid events.old at (asked_on count) result events.new }
{
    let mut place = at;
    for _i in 0..count {
        place = lay_byte(LEFT_HIGH, false, events, place);
    }
    place
}
