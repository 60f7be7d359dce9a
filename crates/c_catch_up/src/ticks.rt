// SPDX-License-Identifier: Apache-2.0
// Many ticks of a valid core by value, as the ticks one by one would leave 00h and the core.
ghost use Rattle.std.specs.Prelude.{◌≡◌, ◌≤◌, ◌<◌, T};
ghost use Rattle.calendar.specs.Next.{is_valid};
ghost use Rattle.calendar_days.specs.After.{most_ticks};
ghost use Rattle.c_catch_up.specs.Code.Ticks.{left_of};

use crate::search::rings_within;
use calendar::Calendar;
use calendar_days::ahead;
use calendar_days::places::standing;
use fm3130_companion::Alarm;
use fm3130_registers::control::told;

// What many ticks leave of 00h and of the core.
#[derive(Clone, Copy)]
pub struct Left {
    pub control: u8,
    pub core: Calendar,
}

// Ticks that count, of a valid core: it goes on by all of them, and the flags of all rise.
#[tactic(auto, using(calendar::proofs::Tests::test_true, calendar_days::proofs::Standing::stands), unfolding(calendar_days::specs::After::after_of))]
pub(crate) fn advanced(control: u8, alarm: Alarm, core: Calendar, n: u32) -> Left
    requires { (T (is_valid core)) × (0 < n) × (n ≤ most_ticks) }
    ensures { result ≡ left_of n control alarm core }
{
    let from = standing(core);
    let last = ahead(core, from, n);
    let rung = rings_within(alarm, from, n);
    Left {
        control: told(control, rung, last.century),
        core: last.calendar,
    }
}
