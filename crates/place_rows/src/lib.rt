// SPDX-License-Identifier: Apache-2.0
// Rows of events that are done together: Clocks inside a byte, Clocks that nobody hears, ticks of a core that was tested
// once. Each function returns the place after the last event that it did. The rows of Clocks are those of every part.
// Stays (fixed): the lent buffers are slices in every public function here, and arrays would ask more of callers; `Accepted` says
// both lengths once.
#![tactic(auto)]

ghost use Rattle.std.specs.Prelude.{◌≡◌, true, ◌+◌, ◌/◌, ◌<◌, ◌≤◌, length, get_or};
ghost use Rattle.bus_image.specs.Places.{IDLE, WRITE_COMPANION, READ_MEMORY, PHASE_AT, CLOCKS_AT};
ghost use Rattle.fm3130_image.specs.Image.{candidate};
ghost use Rattle.fm3130_image.specs.Code.Accepting.{is_image};
ghost use Rattle.place_clock.specs.Code.Clocking.{Accepted};
ghost use Rattle.place_tick.specs.Code.Tick.{is_ticking};
ghost use Rattle.place_rows.specs.Code.Led.{Clocked, Ticked, Begun};

use bus_image::places::{BYTE_AT, CLOCKS_AT, PHASE_AT};
use place_clock::send::fetched;
use place_event::event::{lined, shown};
use place_tick::{counted, unsaid};
use wire::bits::sending_line;

// The first seven bits of a byte that comes in: they are only kept.
#[tactic(auto, using(fm3130_image::proofs::Accepts::image_long))]
pub fn receive_row(image: &mut [u8], events: &[u8], answers: &mut [u8], from: usize) -> usize
    requires image_value { is_image image.old ≡ true }
    requires bound { (IDLE < get_or image.old PHASE_AT 0) × (get_or image.old PHASE_AT 0 < READ_MEMORY) × (get_or image.old CLOCKS_AT 0 < 7) }
    requires from_in_bounds { (from ≤ length events.now) × (length events.now ≤ length answers.old) }
    ensures { Clocked events.now image.old answers.old from
        image.new answers.new result }
{
    let pin = shown(image);
    bus_rows::receive_row(image, pin, events, answers, from)
}

// The second to seventh bit of a byte that goes out.
#[tactic(auto, using(fm3130_image::proofs::Accepts::image_long))]
pub fn send_row(image: &mut [u8], events: &[u8], answers: &mut [u8], from: usize) -> usize
    requires image_value { is_image image.old ≡ true }
    requires bound { (WRITE_COMPANION < get_or image.old PHASE_AT 0) × (0 < get_or image.old CLOCKS_AT 0) × (get_or image.old CLOCKS_AT 0 < 7) }
    requires from_in_bounds { (from ≤ length events.now) × (length events.now ≤ length answers.old) }
    ensures { Clocked events.now image.old answers.old from
        image.new answers.new result }
{
    let pin = shown(image);
    bus_rows::send_row(image, pin, events, answers, from)
}

// Clocks that nobody hears.
#[tactic(auto, using(fm3130_image::proofs::Accepts::image_long))]
pub fn idle_row(image: &[u8], events: &[u8], answers: &mut [u8], from: usize) -> usize
    requires image_value { (is_image image.now ≡ true) × (get_or image.now PHASE_AT 0 ≡ IDLE) }
    requires from_in_bounds { (from ≤ length events.now) × (length events.now ≤ length answers.old) }
    ensures { Clocked events.now image.now answers.old from
        image.now answers.new result }
{
    bus_rows::idle_row(shown(image), events, answers, from)
}

// Ticks of a core that was tested once: a tick leaves it so.
pub fn tick_row(image: &mut [u8], events: &[u8], answers: &mut [u8], from: usize) -> usize
    requires image_value { (is_image image.old ≡ true) × (is_ticking (candidate image.old) ≡ true) }
    requires from_in_bounds { (from ≤ length events.now) × (length events.now ≤ length answers.old) }
    ensures { Ticked events.now image.old answers.old from
        image.new answers.new result }
{
    for i in from..events.len() {
        if events[i] != 4 {
            return i;
        }
        unsaid(counted(image));
        answers[i] = shown(image) + 1;
    }
    events.len()
}

// The first bit of a byte that goes out, where it was not sent yet.
pub fn first_sent(
    image: &mut [u8],
    memory: &[u8],
    events: &[u8],
    answers: &mut [u8],
    from: usize,
) -> usize
    requires accepted { Accepted image.old memory.now }
    requires bound { (WRITE_COMPANION < get_or image.old PHASE_AT 0) × (get_or image.old CLOCKS_AT 0 < 7) }
    requires from_in_bounds { (from < length events.now) × (length events.now ≤ length answers.old)
        × (get_or events.now from 0 / 2 ≡ 1) }
    ensures { Begun events.now image.old memory.now answers.old from
        image.new answers.new result }
{
    if image[CLOCKS_AT] != 0 {
        return from;
    }
    let byte = fetched(image, memory, image[PHASE_AT]);
    let line = sending_line(byte, 0, events[from] % 2 == 1);
    answers[from] = lined(shown(image), line);
    image[CLOCKS_AT] = 1;
    image[BYTE_AT] = byte;
    from + 1
}
