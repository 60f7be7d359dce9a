// SPDX-License-Identifier: Apache-2.0
// One event on a state's image and the lent memory, with its answer byte. The image is changed where it lies.
ghost use Rattle.std.specs.Prelude.{◌<◌};
ghost use Rattle.numbers.specs.Refusal.{number_told};
ghost use Rattle.fm31.specs.Chip.{size_of};
ghost use Rattle.fm31.specs.declared.Size.TheVariants.{Kb64, Kb256};
ghost use Rattle.c_fm31.specs.Single.{SingleSettled};

use bus::select::LONE;
use fm31::{KB64, KB256, LAST_EVENT};
use fm31_image::accept::is_image;
use fm31_place::event::happen;
use numbers::{Refusal, number_told};

// The bytes that are told of an event: its answer byte.
pub const TOLD: usize = 1;

// One event on a part of this size: refused by the first refusal that fits, with nothing written; or done, with its
// answer byte at the front of what is told.
fn step(
    size: u16,
    image: &mut [u8],
    memory: &mut [u8],
    event: u64,
    told: &mut [u8],
) -> Result<(), Refusal>
    ensures { SingleSettled size image.old memory.old event told.old
        (number_told result) image.new memory.new told.new }
{
    if memory.len() != size as usize {
        return Err(Refusal::WrongMemory);
    }
    if !is_image(image, size, LONE) {
        return Err(Refusal::WrongState);
    }
    if event > LAST_EVENT as u64 {
        return Err(Refusal::UnknownEvent);
    }
    if told.len() < TOLD {
        return Err(Refusal::ShortAnswers);
    }
    let answer = happen(image, memory, size, LONE, event as u8);
    told[0] = answer;
    Ok(())
}

// One event for C, on the 64Kb part.
#[unsafe(no_mangle)]
pub extern "C" fn fm3164_step(
    image: &mut [u8],
    memory: &mut [u8],
    event: u64,
    told: &mut [u8],
) -> u64
    ensures { SingleSettled (size_of Kb64) image.old memory.old event told.old
        result image.new memory.new told.new }
{
    number_told(step(KB64, image, memory, event, told))
}

// One event for C, on the 256Kb part.
#[unsafe(no_mangle)]
pub extern "C" fn fm31256_step(
    image: &mut [u8],
    memory: &mut [u8],
    event: u64,
    told: &mut [u8],
) -> u64
    ensures { SingleSettled (size_of Kb256) image.old memory.old event told.old
        result image.new memory.new told.new }
{
    number_told(step(KB256, image, memory, event, told))
}
