// SPDX-License-Identifier: Apache-2.0
// The list run for callers on machines where a struct of two words comes back another way than the module returns it:
// its number alone. Under 0 all events are done, under any other none, so the count is known. An entry of its own and an
// object of its own: the list run is compiled as if this were not there.
#![tactic(auto)]

ghost use Rattle.c_run_number.specs.Number.{NumberSettled};

use c_run::run::fm3130_run;

// The list run, and its number.
#[unsafe(no_mangle)]
pub extern "C" fn fm3130_run_number(
    image: &mut [u8],
    memory: &mut [u8],
    events: &[u8],
    answers: &mut [u8],
) -> u64
    ensures { NumberSettled image.old memory.old events.now answers.old
        result image.new memory.new answers.new }
{
    fm3130_run(image, memory, events, answers).number
}
