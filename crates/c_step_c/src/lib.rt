// SPDX-License-Identifier: Apache-2.0
// One event for C: what `c_step` does, by the same clauses.
#![tactic(auto)]

ghost use Rattle.c_step.specs.Single.{SingleSettled};

// One event on a state's image and the lent memory: refused by the first number that fits, with nothing written; or done,
// with its answer byte and the number of the field that it changed at the front of what is told.
#[unsafe(no_mangle)]
pub extern "C" fn fm3130_step(
    image: &mut [u8],
    memory: &mut [u8],
    event: u64,
    told: &mut [u8],
) -> u64
    ensures { SingleSettled image.old memory.old event told.old
        result image.new memory.new told.new }
{
    c_step::fm3130_step(image, memory, event, told)
}
