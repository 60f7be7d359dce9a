// SPDX-License-Identifier: Apache-2.0
// What of a list of events is done next: a row of them where there is one, or one event.
// Stays (fixed): the lent buffers are slices in every public function here, and arrays would ask more of callers; `Accepted` says
// both lengths once.
#![tactic(auto)]

ghost use Rattle.std.specs.Prelude.{◌≡◌, true, false, cond, ◌/◌, ◌<◌, ◌≤◌, eqb, length, get_or};
ghost use Rattle.bus_image.specs.Places.{IDLE, PHASE_AT};
ghost use Rattle.fm3130_image.specs.Image.{candidate};
ghost use Rattle.fm3130_image.specs.Code.Accepting.{is_image};
ghost use Rattle.fm3130_list.specs.Run.{all_known};
ghost use Rattle.place_clock.specs.Code.Clocking.{Accepted};
ghost use Rattle.place_tick.specs.Code.Tick.{is_ticking};
ghost use Rattle.place_list.specs.Code.Rowed.{Rowed};

use bus_image::phases::{IDLE, READ_MEMORY};
use bus_image::places::{CLOCKS_AT, PHASE_AT};
use place_clock::send::clock;
use place_event::event::{happen, lined, shown};
use place_rows::{first_sent, idle_row, receive_row, send_row, tick_row};
use place_tick::is_ticking;

// The eighth or the ninth Clock of a byte.
fn one_clock(
    image: &mut [u8],
    memory: &mut [u8],
    events: &[u8],
    answers: &mut [u8],
    from: usize,
) -> usize
    requires accepted { Accepted image.old memory.old }
    requires bound { IDLE < get_or image.old PHASE_AT 0 }
    requires from_in_bounds { (from < length events.now) × (length events.now ≤ length answers.old)
        × (get_or events.now from 0 / 2 ≡ 1) }
    ensures { Rowed events.now image.old memory.old answers.old from
        image.new memory.new answers.new result }
{
    let line = clock(image, memory, events[from] == 3);
    answers[from] = lined(shown(image), line);
    from + 1
}

// One Clock, or a row of them.
fn clocks(
    image: &mut [u8],
    memory: &mut [u8],
    events: &[u8],
    answers: &mut [u8],
    from: usize,
) -> usize
    requires accepted { Accepted image.old memory.old }
    requires from_in_bounds { (from < length events.now) × (length events.now ≤ length answers.old)
        × (get_or events.now from 0 / 2 ≡ 1) }
    ensures { Rowed events.now image.old memory.old answers.old from
        image.new memory.new answers.new result }
{
    let number = image[PHASE_AT];
    if number == IDLE {
        return idle_row(image, events, answers, from);
    }
    let done = image[CLOCKS_AT];
    if done > 6 {
        return one_clock(image, memory, events, answers, from);
    }
    if number < READ_MEMORY {
        return receive_row(image, events, answers, from);
    }
    let next = first_sent(image, memory, events, answers, from);
    send_row(image, events, answers, next)
}

// Whether an event is a tick that moves the core.
fn moves(image: &[u8], event: u8) -> bool
    requires { is_image image.now ≡ true }
    ensures { result ≡ cond (eqb event 4) (is_ticking (candidate image.now)) false }
{
    if event == 4 {
        return is_ticking(image);
    }
    false
}

// One event.
fn single(
    image: &mut [u8],
    memory: &mut [u8],
    events: &[u8],
    answers: &mut [u8],
    from: usize,
) -> usize
    requires accepted { Accepted image.old memory.old }
    requires events_value { (all_known events.now ≡ true) × (from < length events.now)
        × (length events.now ≤ length answers.old) }
    ensures { Rowed events.now image.old memory.old answers.old from
        image.new memory.new answers.new result }
{
    let answer = happen(image, memory, events[from]);
    answers[from] = answer;
    from + 1
}

// A row of events, or one event.
pub fn stride(
    image: &mut [u8],
    memory: &mut [u8],
    events: &[u8],
    answers: &mut [u8],
    from: usize,
) -> usize
    requires accepted { Accepted image.old memory.old }
    requires events_value { (all_known events.now ≡ true) × (from < length events.now)
        × (length events.now ≤ length answers.old) }
    ensures { Rowed events.now image.old memory.old answers.old from
        image.new memory.new answers.new result }
{
    let event = events[from];
    if event / 2 == 1 {
        return clocks(image, memory, events, answers, from);
    }
    if moves(image, event) {
        return tick_row(image, events, answers, from);
    }
    single(image, memory, events, answers, from)
}
