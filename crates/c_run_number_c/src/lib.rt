// SPDX-License-Identifier: Apache-2.0
// The list run that returns a number, for C: what `c_run_number` does, by the same clauses.
#![tactic(auto)]

ghost use Rattle.c_run_number.specs.Number.{NumberSettled};

// The list run, and its number.
#[unsafe(no_mangle)]
pub extern "C" fn fm3130_run_number(
    image: &mut [u8],
    memory: &mut [u8],
    events: &[u8],
    answers: &mut [u8],
) -> u64
    ensures { NumberSettled image.old memory.old events.now answers.old
        result image.new memory.new answers.new }
{
    c_run_number::fm3130_run_number(image, memory, events, answers)
}
