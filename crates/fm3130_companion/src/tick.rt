// SPDX-License-Identifier: Apache-2.0
// A one-second tick: the core goes on, the flags rise, 02h to 08h follow. Whether power or backup is present is the
// caller's to test.
ghost use Rattle.std.specs.Prelude.{◌≡◌};
ghost use Rattle.fm3130_companion.specs.Tick.{matches, counted_of, tick_of, rolled_of, ticked_of};
ghost use Rattle.calendar.specs.Next.{next_of};

use crate::{Alarm, Companion, Registers, Ticked};
use bits::has;
use calendar::{Calendar, Rolled};
use fm3130_registers::alarm::agrees;
use fm3130_registers::control::{followed, told};
use fm3130_registers::map::OSCEN;

impl Alarm {
    // Whether each selected field equals the calendar's; with none selected, always.
    fn matches(self, time: Calendar) -> bool
        ensures { result ≡ matches self time }
    {
        agrees(self.seconds, time.seconds)
            & agrees(self.minutes, time.minutes)
            & agrees(self.hours, time.hours)
            & agrees(self.date, time.date)
            & agrees(self.month, time.month)
    }
}

impl Companion {
    // A tick that counts: a valid core advances and is compared with the alarm, an invalid one stays and rings nothing.
    fn counted(self) -> Ticked
        ensures { result ≡ ticked_of (counted_of self) (next_of self.core).rolled }
    {
        let core = self.core;
        let registers = self.registers;
        let next = core.next();
        let advanced = next.calendar;
        let rung = core.is_valid() & registers.alarm.matches(advanced);
        Ticked {
            companion: Companion {
                registers: Registers {
                    control: told(registers.control, rung, next.century),
                    time: followed(registers.control, advanced, registers.time),
                    ..registers
                },
                core: advanced,
                ..self
            },
            rolled: next.rolled,
        }
    }

    // A tick: nothing changes while the oscillator is off.
    #[tactic(auto, unfolding(crate::specs::Tick::tick_of, crate::specs::Tick::rolled_of))]
    pub fn tick(self) -> Ticked
        ensures { result ≡ ticked_of (tick_of self) (rolled_of self) }
    {
        if has(self.registers.trim, OSCEN) {
            return Ticked {
                companion: self,
                rolled: Rolled::Nothing,
            };
        }
        self.counted()
    }
}
