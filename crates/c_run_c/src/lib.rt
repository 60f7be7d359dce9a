// SPDX-License-Identifier: Apache-2.0
// The list run and the fresh image for C: what `c_run` does, by the same clauses.
#![tactic(auto)]

ghost use Rattle.c_run.specs.Run.{RunSettled};
ghost use Rattle.c_run.specs.Fresh.{FreshSettled};

use c_run::Ran;

// The list run: refused by the first number that fits, with nothing written; or every event done, its answer written,
// and the image of the state that the events lead to.
#[unsafe(no_mangle)]
pub extern "C" fn fm3130_run(
    image: &mut [u8],
    memory: &mut [u8],
    events: &[u8],
    answers: &mut [u8],
) -> Ran
    ensures { RunSettled image.old memory.old events.now answers.old
        result image.new memory.new answers.new }
{
    c_run::run::fm3130_run(image, memory, events, answers)
}

// Writes the fresh state's image, where the buffer has 64 bytes; any other is left as it is.
#[unsafe(no_mangle)]
pub extern "C" fn fm3130_fresh(image: &mut [u8]) -> u64
    ensures { FreshSettled image.old result image.new }
{
    c_run::run::fm3130_fresh(image)
}
