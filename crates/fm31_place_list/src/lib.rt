// SPDX-License-Identifier: Apache-2.0
// What of a list of events is done next on a device of the larger family, in its image: a row of Clocks where there is one, or
// one event; and a whole list.
#![tactic(auto)]

ghost use Rattle.std.specs.Prelude.{◌≡◌, true, ◌/◌, ◌<◌, ◌≤◌, length, get_or};
ghost use Rattle.bus.specs.Select.{lone};
ghost use Rattle.fm31_run.specs.Code.Run.{all_known};
ghost use Rattle.fm31_image.specs.Image.{candidate};
ghost use Rattle.fm31_place.specs.Lying.{Accepted};
ghost use Rattle.fm31_place_list.specs.Rowed.{Rowed, RanIn};

use bus::select::LONE;
use bus_image::places::{CLOCKS_AT, PHASE_AT};
use bus_rows::{idle_row, receive_row, send_row};
use fm31_place::event::happen;

// One event.
// Stays (plain): this and the two below are no twins of `place_list`'s: there are no rows of ticks here and no first bit sent
// in a row; the rows of Clocks, which both have, are those of `bus_rows`.
fn single(
    size: u16,
    image: &mut [u8],
    memory: &mut [u8],
    events: &[u8],
    answers: &mut [u8],
    from: usize,
) -> usize
    requires accepted { Accepted size lone image.old memory.old × (0 < size) }
    requires events_value { (all_known events.now ≡ true) × (from < length events.now)
        × (length events.now ≤ length answers.old) }
    ensures { Rowed size events.now image.old memory.old answers.old from
        image.new memory.new answers.new result }
{
    let event = events[from];
    let answer = happen(image, memory, size, LONE, event);
    answers[from] = answer;
    from + 1
}

// A row of Clocks, or one of them: the eighth and the ninth, and the first of a byte that goes out.
fn clocks(
    size: u16,
    image: &mut [u8],
    memory: &mut [u8],
    events: &[u8],
    answers: &mut [u8],
    from: usize,
) -> usize
    requires accepted { Accepted size lone image.old memory.old × (0 < size) }
    requires events_value { (all_known events.now ≡ true) × (from < length events.now)
        × (length events.now ≤ length answers.old) × (get_or events.now from 0 / 2 ≡ 1) }
    ensures { Rowed size events.now image.old memory.old answers.old from
        image.new memory.new answers.new result }
{
    let number = image[PHASE_AT];
    if number == 0 {
        return idle_row(0, events, answers, from);
    }
    let done = image[CLOCKS_AT];
    if done > 6 {
        return single(size, image, memory, events, answers, from);
    }
    if number < 7 {
        return receive_row(image, 0, events, answers, from);
    }
    if done == 0 {
        return single(size, image, memory, events, answers, from);
    }
    send_row(image, 0, events, answers, from)
}

// A row of Clocks, or one event.
fn stride(
    size: u16,
    image: &mut [u8],
    memory: &mut [u8],
    events: &[u8],
    answers: &mut [u8],
    from: usize,
) -> usize
    requires accepted { Accepted size lone image.old memory.old × (0 < size) }
    requires events_value { (all_known events.now ≡ true) × (from < length events.now)
        × (length events.now ≤ length answers.old) }
    ensures { Rowed size events.now image.old memory.old answers.old from
        image.new memory.new answers.new result }
{
    let event = events[from];
    if event / 2 == 1 {
        return clocks(size, image, memory, events, answers, from);
    }
    single(size, image, memory, events, answers, from)
}

// All events, from an accepted image. The answers go to the front of their buffer.
// Stays (plain): a `while`, since a stride goes on by one event or by a whole row.
pub fn run_events(size: u16, image: &mut [u8], memory: &mut [u8], events: &[u8], answers: &mut [u8])
    requires accepted { Accepted size lone image.old memory.old × (0 < size) }
    requires events_value { (all_known events.now ≡ true) × (length events.now ≤ length answers.old) }
    ensures { RanIn size (candidate image.old) memory.old events.now
        answers.old image.new memory.new answers.new }
{
    let mut i = 0;
    while i < events.len() {
        i = stride(size, image, memory, events, answers, i);
    }
}
