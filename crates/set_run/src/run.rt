// SPDX-License-Identifier: Apache-2.0
// A list of events on a set: on each device in turn, the answers joined.
ghost use Rattle.std.specs.Prelude.{◌≡◌, ◌≤◌, length};
ghost use Rattle.set_event.specs.Set.{most, held};
ghost use Rattle.set_event.specs.Outcome.{lent_to, SetFit};
ghost use Rattle.set_event.specs.Code.Outcome.{Fit};
ghost use Rattle.set_run.specs.Run.{all_known, RanThrough};
ghost use Rattle.set_run.specs.Turn.{RanMember};

use fm31::step::size_of;
use fm31_run::Seat;
use fm31_run::list::run_at;
use set_event::{Member, Set};

// Whether every event byte is known to a set of so many devices.
pub fn all_known(count: u8, events: &[u8]) -> bool
    requires { count ≤ most }
    ensures { result ≡ all_known count events.now }
{
    bus_list::all_known(events, 7 + 2 * count)
}

// All events on the device at a place, if it is on the line: the device they lead to.
fn run_member(
    member: Member,
    count: u8,
    place: u8,
    memory: &mut [u8],
    events: &[u8],
    answers: &mut [u8],
) -> Member
    requires fit { Fit count place (held member memory.old) }
    requires place_bound { (place ≤ 3) × (length events.now ≤ length answers.old) }
    ensures { RanMember count place (held member memory.old) events.now answers.old
        result memory.new answers.new }
{
    if place < count {
        let seat = Seat {
            size: size_of(member.size),
            select: member.select,
            place,
        };
        let state = run_at(member.state, seat, memory, events, answers);
        return Member { state, ..member };
    }
    member
}

// All events on the devices of a set, one to four or none: the set they lead to. Each device does the whole list before the next
// one begins: none hears what another does. The answers go to the front of their buffer.
pub fn run_events(
    set: Set,
    one: &mut [u8],
    two: &mut [u8],
    three: &mut [u8],
    four: &mut [u8],
    events: &[u8],
    answers: &mut [u8],
) -> Set
    requires set_fit { SetFit (lent_to set one.old two.old three.old four.old) }
    requires room { length events.now ≤ length answers.old }
    ensures { RanThrough (lent_to set one.old two.old three.old four.old)
        events.now answers.old
        (lent_to result one.new two.new three.new four.new) answers.new }
{
    if set.count == 0 {
        // No device pulls the line low.
        answers[..events.len()].fill(1);
        return set;
    }
    let first = run_member(set.first, set.count, 0, one, events, answers);
    let second = run_member(set.second, set.count, 1, two, events, answers);
    let third = run_member(set.third, set.count, 2, three, events, answers);
    let fourth = run_member(set.fourth, set.count, 3, four, events, answers);
    Set {
        count: set.count,
        first,
        second,
        third,
        fourth,
    }
}
