// SPDX-License-Identifier: Apache-2.0
// One event byte on a state and the lent memory, and the entry that refuses what 01's table refuses.
ghost use Rattle.std.specs.Prelude.{◌≡◌, ◌≤◌};
ghost use Rattle.fm31.specs.Chip.{last_event};
ghost use Rattle.fm31.specs.Chip.{size_of, event_of, fresh};
ghost use Rattle.fm31.specs.Limits.{well_formed};
ghost use Rattle.fm31.specs.Step.{Ready, AnsweredWith, answer_byte, refusal, admission, StepSettled};
ghost use Rattle.numbers.specs.Refusal.{number_of};

use crate::{Answered, KB64, KB256, LAST_EVENT, Size, State, Stepped};
use bus::{Bus, Power};
use bus_deeds::deed_of;
use bus_deeds::serve::serve;
use bus_limits::bus_within;
use fm31_counters::Counters;
use fm31_counters::map::{FIRST, LAST};
use numbers::{ACCEPTED, Refusal};

// The bytes of memory of a size.
// Stays (plain): `size_of(size)` reads as its definition does, and a method would say no more.
pub fn size_of(size: Size) -> u16
    ensures { result ≡ size_of size }
{
    match size {
        Size::Kb64 => KB64,
        Size::Kb256 => KB256,
    }
}

// The answer byte: the line alone.
pub fn answer_byte(line: bool) -> u8
    ensures { result ≡ answer_byte line }
{
    u8::from(line)
}

// What the entry returns of a refused event: its state unchanged with answer byte 1.
// Stays (plain): the FM3130's has a field more, what a tick told; one over both would take a type for it at every use.
fn refused(refused_by: Refusal, state: State) -> Stepped
    ensures { result ≡ refusal (number_of refused_by) state }
{
    Stepped {
        number: refused_by.number(),
        state,
        answer: 1,
    }
}

impl State {
    // The fresh device.
    pub fn fresh() -> State
        ensures { result ≡ fresh }
    {
        State {
            bus: Bus::resting(Power::On),
            counters: Counters::blank(),
        }
    }

    // Whether the state is within the limits of a size with these select bits.
    #[tactic(auto, unfolding(crate::specs::Limits::well_formed))]
    pub fn is_well_formed(self, size: u16, select: u8) -> bool
        ensures { result ≡ well_formed size select self }
    {
        bus_within(self.bus, size, select, FIRST, LAST) & self.counters.is_within()
    }

    // One event of the ten, with its answer byte: the companion does what it is asked, the bus does the rest.
    // Stays (plain): the FM3130's `tell` has the pin and what a tick told besides; what both do is `serve` and `Bus::happen`.
    pub fn advance(self, memory: &mut [u8], size: u16, select: u8, event: u8) -> Answered
        requires ready { Ready size self memory.old }
        requires event_le_last_event { event ≤ last_event }
        ensures { AnsweredWith size select result memory.new (event_of size select self memory.old event) }
    {
        let bus = self.bus;
        // A local of its own: where the protection is read out of `self`, bytes beside it are split and joined again at each
        // event of a list.
        let counters = self.counters;
        let guard = counters.guard();
        let served = serve(counters, deed_of(bus, event));
        let went = bus.happen(memory, size, select, guard, served.reply, event);
        Answered {
            state: State {
                bus: went.bus,
                counters: served.companion,
            },
            answer: answer_byte(went.line),
        }
    }

    // Whether an event can be done: else the first refusal that fits.
    fn admits(self, size: u16, select: u8, memory: &[u8], event: u8) -> Result<(), Refusal>
        ensures { result ≡ admission size select self memory.now event }
    {
        if memory.len() != usize::from(size) {
            return Err(Refusal::WrongMemory);
        }
        if !self.is_well_formed(size, select) {
            return Err(Refusal::WrongState);
        }
        if event > LAST_EVENT {
            return Err(Refusal::UnknownEvent);
        }
        Ok(())
    }

    // The entry for one event: refused by the first number that fits, or done.
    pub fn step(self, chosen: Size, select: u8, memory: &mut [u8], event: u8) -> Stepped
        ensures { StepSettled chosen select self memory.old event result memory.new }
    {
        let size = size_of(chosen);
        match self.admits(size, select, memory, event) {
            Err(refused_by) => refused(refused_by, self),
            Ok(()) => {
                let answered = self.advance(memory, size, select, event);
                Stepped {
                    number: ACCEPTED,
                    state: answered.state,
                    answer: answered.answer,
                }
            }
        }
    }
}
