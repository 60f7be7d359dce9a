// SPDX-License-Identifier: Apache-2.0
// A list of events on a state's image and the lent buffers, and the fresh image. All that can be refused is tested
// first. An event changes the bytes of the image that it must.
ghost use Rattle.std.specs.Prelude.{◌<◌};
ghost use Rattle.numbers.specs.Refusal.{number_told};
ghost use Rattle.fm31.specs.Chip.{size_of};
ghost use Rattle.fm31.specs.declared.Size.TheVariants.{Kb64, Kb256};
ghost use Rattle.c_fm31.specs.Run.{RunSettled};
ghost use Rattle.c_fm31.specs.Fresh.{FreshSettled};

use bus::select::LONE;
use fm31::{KB64, KB256, State};
use fm31_image::accept::is_image;
use fm31_image::image::{LENGTH, write_image};
use fm31_place_list::run_events;
use fm31_run::run::all_known;
use numbers::{Refusal, number_told};

// The list run of a part of this size: refused by the first refusal that fits, with nothing written; or every event
// done, its answer written, and the image of the state that the events lead to.
fn run(
    size: u16,
    image: &mut [u8],
    memory: &mut [u8],
    events: &[u8],
    answers: &mut [u8],
) -> Result<(), Refusal>
    requires { 0 < size }
    ensures { RunSettled size image.old memory.old events.now answers.old
        (number_told result) image.new memory.new answers.new }
{
    if memory.len() != size as usize {
        return Err(Refusal::WrongMemory);
    }
    if !is_image(image, size, LONE) {
        return Err(Refusal::WrongState);
    }
    if !all_known(events) {
        return Err(Refusal::UnknownEvent);
    }
    if answers.len() < events.len() {
        return Err(Refusal::ShortAnswers);
    }
    run_events(size, image, memory, events, answers);
    Ok(())
}

// The list run for C, of the 64Kb part.
#[unsafe(no_mangle)]
pub extern "C" fn fm3164_run(
    image: &mut [u8],
    memory: &mut [u8],
    events: &[u8],
    answers: &mut [u8],
) -> u64
    ensures { RunSettled (size_of Kb64) image.old memory.old events.now answers.old
        result image.new memory.new answers.new }
{
    number_told(run(KB64, image, memory, events, answers))
}

// The list run for C, of the 256Kb part.
#[unsafe(no_mangle)]
pub extern "C" fn fm31256_run(
    image: &mut [u8],
    memory: &mut [u8],
    events: &[u8],
    answers: &mut [u8],
) -> u64
    ensures { RunSettled (size_of Kb256) image.old memory.old events.now answers.old
        result image.new memory.new answers.new }
{
    number_told(run(KB256, image, memory, events, answers))
}

// Writes the fresh state's image, where the buffer has 64 bytes; any other is left as it is.
fn write_fresh(image: &mut [u8]) -> Result<(), Refusal>
    ensures { FreshSettled image.old (number_told result) image.new }
{
    if image.len() != LENGTH {
        return Err(Refusal::WrongState);
    }
    write_image(State::fresh(), image);
    Ok(())
}

// The fresh image for C. It serves both sizes.
#[unsafe(no_mangle)]
pub extern "C" fn fm31_fresh(image: &mut [u8]) -> u64
    ensures { FreshSettled image.old result image.new }
{
    number_told(write_fresh(image))
}
