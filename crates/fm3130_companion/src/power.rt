// SPDX-License-Identifier: Apache-2.0
// The companion that the loss of both supplies leaves.
ghost use Rattle.std.specs.Prelude.{◌≡◌};
ghost use Rattle.fm3130_companion.specs.Power.{lost_date, lost_registers, lost_of};

use crate::{Alarm, Companion, Registers};
use calendar::Calendar;
use fm3130_registers::map::{LB, OSCEN, POR};

// The date that the loss of both supplies leaves: all 0 but day, date and month, which are 1.
fn lost_date() -> Calendar
    ensures { result ≡ lost_date }
{
    Calendar {
        seconds: 0,
        minutes: 0,
        hours: 0,
        day: 1,
        date: 1,
        month: 1,
        year: 0,
    }
}

// The registers that the loss of both supplies leaves: all 0 but LB, POR, OSCEN and the date.
fn lost_registers() -> Registers
    ensures { result ≡ lost_registers }
{
    let alarm = Alarm {
        seconds: 0,
        minutes: 0,
        hours: 0,
        date: 0,
        month: 0,
    };
    Registers {
        control: LB + POR,
        trim: OSCEN,
        time: lost_date(),
        alarm: alarm,
        setup: 0,
    }
}

impl Companion {
    // The fresh companion: as both supplies' loss leaves it.
    #[tactic(auto, unfolding(crate::specs::Power::lost_of))]
    pub fn fresh() -> Companion
        ensures { result ≡ lost_of }
    {
        Companion {
            registers: lost_registers(),
            core: lost_date(),
            address: 0,
        }
    }
}
