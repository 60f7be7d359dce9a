// SPDX-License-Identifier: Apache-2.0
// The list run with the proving record for C: what `c_lamps` does, by the same clauses.
#![tactic(auto)]

ghost use Rattle.c_lamps.specs.Run.{LampsSettled};

use c_lamps::Shown;

// The list run with the record: refused by the first number that fits, with nothing written; or every event done, its
// answer, the image and the record's bytes written, and the report returned.
#[unsafe(no_mangle)]
pub extern "C" fn fm3130_lamps(
    image: &mut [u8],
    memory: &mut [u8],
    events: &[u8],
    answers: &mut [u8],
    kept: &mut [u8],
) -> Shown
    ensures { LampsSettled image.old memory.old events.now answers.old
        kept.old result image.new memory.new answers.new kept.new }
{
    c_lamps::run::fm3130_lamps(image, memory, events, answers, kept)
}
