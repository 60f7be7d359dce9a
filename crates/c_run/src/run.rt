// SPDX-License-Identifier: Apache-2.0
// A list of events on a state's image and the lent buffers, and the fresh image. All that can be refused is tested
// first. An event changes the bytes of the image that it must.
ghost use Rattle.std.specs.Prelude.{◌≡◌, true, ◌≤◌, length};
ghost use Rattle.fm3130_image.specs.Image.{candidate};
ghost use Rattle.place_clock.specs.Code.Clocking.{Accepted};
ghost use Rattle.fm3130_list.specs.Run.{all_known, RanThrough};
ghost use Rattle.numbers.specs.Refusal.{number_told};
ghost use Rattle.c_run.specs.Run.{ran_told, RunSettled};
ghost use Rattle.c_run.specs.Fresh.{FreshSettled};

use crate::Ran;
use fm3130::State;
use fm3130_accept::admit;
use fm3130_image::LENGTH;
use fm3130_image::write::write_image;
use fm3130_list::all_known;
use numbers::{Refusal, number_told};
use place_list::stride;

// All events, from an accepted image. The answers go to the front of their buffer.
pub fn run_events(image: &mut [u8], memory: &mut [u8], events: &[u8], answers: &mut [u8])
    requires accepted { Accepted image.old memory.old }
    requires events_value { (all_known events.now ≡ true) × (length events.now ≤ length answers.old) }
    ensures { RanThrough (candidate image.old) memory.old events.now
        answers.old image.new memory.new answers.new }
{
    // Stays (plain): a stride is one event or a row of them, so no iterator goes over the events one by one.
    let mut i = 0;
    while i < events.len() {
        i = stride(image, memory, events, answers, i);
    }
}

// The list run's tests in the order of their numbers, with nothing written before the last; and how many events were done.
fn run_list(
    image: &mut [u8],
    memory: &mut [u8],
    events: &[u8],
    answers: &mut [u8],
) -> Result<u64, Refusal>
    ensures { RunSettled image.old memory.old events.now answers.old
        (ran_told result) image.new memory.new answers.new }
{
    admit(image, memory)?;
    if !all_known(events) {
        return Err(Refusal::UnknownEvent);
    }
    if answers.len() < events.len() {
        return Err(Refusal::ShortAnswers);
    }
    run_events(image, memory, events, answers);
    Ok(events.len() as u64)
}

// The list run: refused by the first number that fits, with nothing written; or every event done, its answer written,
// and the image of the state that the events lead to.
#[unsafe(no_mangle)]
pub extern "C" fn fm3130_run(
    image: &mut [u8],
    memory: &mut [u8],
    events: &[u8],
    answers: &mut [u8],
) -> Ran
    ensures { RunSettled image.old memory.old events.now answers.old
        result image.new memory.new answers.new }
{
    Ran::from(run_list(image, memory, events, answers))
}

// Writes the fresh state's image, where the buffer has 64 bytes.
fn write_fresh(image: &mut [u8]) -> Result<(), Refusal>
    ensures { FreshSettled image.old (number_told result) image.new }
{
    if image.len() != LENGTH {
        return Err(Refusal::WrongState);
    }
    write_image(State::fresh(), image);
    Ok(())
}

// The fresh image; a buffer that has not 64 bytes is left as it is.
#[unsafe(no_mangle)]
pub extern "C" fn fm3130_fresh(image: &mut [u8]) -> u64
    ensures { FreshSettled image.old result image.new }
{
    number_told(write_fresh(image))
}
