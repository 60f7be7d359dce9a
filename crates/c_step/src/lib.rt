// SPDX-License-Identifier: Apache-2.0
// One event for a host program: its answer byte, and the highest field of the calendar that it changed. An entry of its
// own and an object of its own: a host that calls it links nothing of the list run, and the list run is compiled as if
// this were not there.
#![tactic(auto)]

ghost use Rattle.std.specs.Prelude.{◌≡◌};
ghost use Rattle.numbers.specs.Refusal.{number_told};
ghost use Rattle.c_step.specs.Single.{SingleSettled};

use fm3130_accept::admit;
use numbers::{Refusal, number_told};
use place_event::event::tell;

// The bytes that are told of an event: its answer byte, and the number of the field.
pub const TOLD: usize = 2;

// One event on a state's image and the lent memory: refused by the first number that fits, with nothing written; or done,
// with its answer byte and the number of the field that it changed at the front of what is told.
fn step(image: &mut [u8], memory: &mut [u8], event: u64, told: &mut [u8]) -> Result<(), Refusal>
    ensures { SingleSettled image.old memory.old event told.old
        (number_told result) image.new memory.new told.new }
{
    admit(image, memory)?;
    if event > 7 {
        return Err(Refusal::UnknownEvent);
    }
    if told.len() < TOLD {
        return Err(Refusal::ShortAnswers);
    }
    let done = tell(image, memory, event as u8);
    told[0] = done.answer;
    told[1] = done.rolled.number();
    Ok(())
}

// The same for C, which is told the number of the refusal, or 0.
#[unsafe(no_mangle)]
pub extern "C" fn fm3130_step(
    image: &mut [u8],
    memory: &mut [u8],
    event: u64,
    told: &mut [u8],
) -> u64
    ensures { SingleSettled image.old memory.old event told.old
        result image.new memory.new told.new }
{
    number_told(step(image, memory, event, told))
}
