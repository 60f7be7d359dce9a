// SPDX-License-Identifier: Apache-2.0
// A master's ask for the bus, and its call of the list run. Number 7 is tested after number 3 and before number 4; a lent
// byte or a master that does not exist is refused by 2, after the image, for it is a part of what the host hands in.
ghost use Rattle.numbers.specs.Refusal.{number_told};
ghost use Rattle.c_run.specs.Run.{ran_told};
ghost use Rattle.c_masters.specs.Outcome.{AskSettled, CallSettled};

use c_run::Ran;
use c_run::run::run_events;
use fm3130_accept::admit;
use fm3130_list::all_known;
use masters_hold::Standing;
use masters_hold::bus_byte::{free_after, master_number, may_ask, may_call, standing};
use numbers::{Refusal, number_told};

// An ask for the bus: it is refused, with nothing changed, or the asker holds it.
fn ask(bus: &mut [u8], master: u64) -> Result<(), Refusal>
    ensures { AskSettled bus.old master (number_told result) bus.new }
{
    let Some(
        Standing {
            holder,
            master: asker,
        },
    ) = standing(bus, master)
    else {
        return Err(Refusal::WrongState);
    };
    if !may_ask(holder, asker) {
        return Err(Refusal::NotHeld);
    }
    bus[0] = master_number(asker);
    Ok(())
}

// A master asks for the bus: it is refused, with nothing changed, or holds it.
#[unsafe(no_mangle)]
pub extern "C" fn fm3130_ask(bus: &mut [u8], master: u64) -> u64
    ensures { AskSettled bus.old master result bus.new }
{
    number_told(ask(bus, master))
}

// A call of the list run by a master, with how many events it did, or why it was refused.
fn call(
    bus: &mut [u8],
    master: u64,
    image: &mut [u8],
    memory: &mut [u8],
    events: &[u8],
    answers: &mut [u8],
) -> Result<u64, Refusal>
    ensures { CallSettled bus.old master image.old memory.old events.now
        answers.old (ran_told result) bus.new image.new memory.new answers.new }
{
    admit(image, memory)?;
    let Some(
        Standing {
            holder,
            master: caller,
        },
    ) = standing(bus, master)
    else {
        return Err(Refusal::WrongState);
    };
    if !all_known(events) {
        return Err(Refusal::UnknownEvent);
    }
    if !may_call(holder, caller, events) {
        return Err(Refusal::NotHeld);
    }
    if answers.len() < events.len() {
        return Err(Refusal::ShortAnswers);
    }
    run_events(image, memory, events, answers);
    free_after(events, bus);
    Ok(events.len() as u64)
}

// A master's call of the list run: refused by the first number that fits, with nothing written; or every event done as the
// list run does it, and the bus freed if the events free it.
#[unsafe(no_mangle)]
pub extern "C" fn fm3130_call(
    bus: &mut [u8],
    master: u64,
    image: &mut [u8],
    memory: &mut [u8],
    events: &[u8],
    answers: &mut [u8],
) -> Ran
    ensures { CallSettled bus.old master image.old memory.old events.now
        answers.old result bus.new image.new memory.new answers.new }
{
    Ran::from(call(bus, master, image, memory, events, answers))
}
