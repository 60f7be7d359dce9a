// SPDX-License-Identifier: Apache-2.0
// One event of a line on a device in its seat, by value.
ghost use Rattle.std.specs.Prelude.{◌≡◌, ◌≤◌};
ghost use Rattle.fm31.specs.Step.{Ready};
ghost use Rattle.fm31_run.specs.Seat.{hears_at, own_byte, joined_at, HeardAs};

use crate::Seat;
use fm31::{Answered, State};

// Whether the device at a place hears an event.
pub fn hears_at(place: u8, event: u8) -> bool
    requires { place ≤ 3 }
    ensures { result ≡ hears_at place event }
{
    (event < 8) | (event / 2 == place + 4)
}

// The event as the device has it: 8 and 9 are its own edges.
pub fn own_byte(event: u8) -> u8
    ensures { result ≡ own_byte event }
{
    if event < 8 {
        return event;
    }
    8 + event % 2
}

// The answer of the line, of the device's and of what those before it answered: low if any pulls it low.
fn joined(place: u8, before: u8, answer: u8) -> u8
    ensures { result ≡ joined_at place before answer }
{
    if (place == 0) | (before == 1) {
        return answer;
    }
    0
}

// One event: done as the device alone would do it, if it hears it.
pub(crate) fn hear(state: State, memory: &mut [u8], seat: Seat, event: u8, before: u8) -> Answered
    requires ready { Ready seat.size state memory.old }
    requires place_bound { seat.place ≤ 3 }
    ensures { HeardAs seat state memory.old event before result memory.new }
{
    if hears_at(seat.place, event) {
        let answered = state.advance(memory, seat.size, seat.select, own_byte(event));
        return Answered {
            state: answered.state,
            answer: joined(seat.place, before, answered.answer),
        };
    }
    Answered {
        state,
        answer: joined(seat.place, before, 1),
    }
}
