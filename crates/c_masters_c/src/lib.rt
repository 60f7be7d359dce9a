// SPDX-License-Identifier: Apache-2.0
// Two masters for C: an ask for the bus and a master's call, as `c_masters` does them, by the same clauses.
#![tactic(auto)]

ghost use Rattle.c_masters.specs.Outcome.{AskSettled, CallSettled};

use c_run::Ran;

// A master asks for the bus: it is refused, with nothing changed, or holds it.
#[unsafe(no_mangle)]
pub extern "C" fn fm3130_ask(bus: &mut [u8], master: u64) -> u64
    ensures { AskSettled bus.old master result bus.new }
{
    c_masters::entries::fm3130_ask(bus, master)
}

// A master's call of the list run: refused by the first number that fits, with nothing written; or every event done as the
// list run does it, and the bus freed if the events free it.
#[unsafe(no_mangle)]
pub extern "C" fn fm3130_call(
    bus: &mut [u8],
    master: u64,
    image: &mut [u8],
    memory: &mut [u8],
    events: &[u8],
    answers: &mut [u8],
) -> Ran
    ensures { CallSettled bus.old master image.old memory.old events.now
        answers.old result bus.new image.new memory.new answers.new }
{
    c_masters::entries::fm3130_call(bus, master, image, memory, events, answers)
}
