// SPDX-License-Identifier: Apache-2.0
// A list of events on a device in its seat. The state's limits hold through all events.
ghost use Rattle.std.specs.Prelude.{◌≡◌, true, ◌≤◌, ◌<◌, length};
ghost use Rattle.fm31.specs.Limits.{well_formed};
ghost use Rattle.fm31_run.specs.Seat.{RanAt};

use crate::Seat;
use crate::step::hear_in_place;
use fm31::State;

// All events of a line, one by one, on one of its devices: the state they lead to. One record stays in the loop and is changed in
// place. The first device writes its answers to the front of their buffer, each later one joins its own to them.
pub fn run_at(
    state: State,
    seat: Seat,
    memory: &mut [u8],
    events: &[u8],
    answers: &mut [u8],
) -> State
    requires state_value { (well_formed seat.size seat.select state ≡ true) × (length memory.old ≡ seat.size) × (0 < seat.size) }
    requires place_bound { (seat.place ≤ 3) × (length events.now ≤ length answers.old) }
    ensures { RanAt seat state memory.old events.now answers.old
        result memory.new answers.new }
{
    let mut at = state;
    for (i, event) in events.iter().enumerate() {
        answers[i] = hear_in_place(&mut at, memory, seat, *event, answers[i]);
    }
    at
}
