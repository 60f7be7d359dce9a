// SPDX-License-Identifier: Apache-2.0
// A list of events on a device alone: it sits at the first place of its line, with no select bits.
ghost use Rattle.std.specs.Prelude.{◌≡◌, true, ◌≤◌, ◌<◌, length};
ghost use Rattle.bus.specs.Select.{lone};
ghost use Rattle.fm31.specs.Limits.{well_formed};
ghost use Rattle.fm31_run.specs.Code.Run.{all_known, RanThrough};

use crate::Seat;
use crate::list::run_at;
use bus::select::LONE;
use fm31::{LAST_EVENT, State};

// Whether every event byte is one of the ten.
pub fn all_known(events: &[u8]) -> bool
    ensures { result ≡ all_known events.now }
{
    bus_list::all_known(events, LAST_EVENT)
}

// All events, one by one, from a well-formed state: the state they lead to. The answers go to the front of their buffer.
pub fn run_events(
    state: State,
    size: u16,
    memory: &mut [u8],
    events: &[u8],
    answers: &mut [u8],
) -> State
    requires state_value { (well_formed size lone state ≡ true) × (length memory.old ≡ size) × (0 < size) }
    requires events_value { (all_known events.now ≡ true) × (length events.now ≤ length answers.old) }
    ensures { RanThrough size state memory.old events.now answers.old
        result memory.new answers.new }
{
    let seat = Seat {
        size,
        select: LONE,
        place: 0,
    };
    run_at(state, seat, memory, events, answers)
}
