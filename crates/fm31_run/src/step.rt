// SPDX-License-Identifier: Apache-2.0
// One event on a device record that is lent: the step by value, and the record changed in place.
ghost use Rattle.std.specs.Prelude.{◌≤◌};
ghost use Rattle.fm31.specs.Step.{Ready};
ghost use Rattle.fm31.specs.Chip.{last_event, event_of};
ghost use Rattle.fm31_run.specs.Code.Run.{InPlace};
ghost use Rattle.fm31_run.specs.Seat.{HeardInPlace};

use crate::Seat;
use crate::hear::hear;
use fm31::State;

// One event of the ten, with its answer byte.
pub(crate) fn advance_in_place(
    state: &mut State,
    memory: &mut [u8],
    size: u16,
    select: u8,
    event: u8,
) -> u8
    requires ready { Ready size state.old memory.old }
    requires event_le_last_event { event ≤ last_event }
    ensures { InPlace size select state.new result memory.new
        (event_of size select state.old memory.old event) }
{
    let done = (*state).advance(memory, size, select, event);
    *state = done.state;
    done.answer
}

// One event of the line, with its answer byte.
pub(crate) fn hear_in_place(
    state: &mut State,
    memory: &mut [u8],
    seat: Seat,
    event: u8,
    before: u8,
) -> u8
    requires ready { Ready seat.size state.old memory.old }
    requires place_bound { seat.place ≤ 3 }
    ensures { HeardInPlace seat state.old memory.old event before
        state.new result memory.new }
{
    let done = hear(*state, memory, seat, event, before);
    *state = done.state;
    done.answer
}
