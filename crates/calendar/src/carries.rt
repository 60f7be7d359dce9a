// SPDX-License-Identifier: Apache-2.0
// What a tick says of the fields that it changed, by the carries between them.
ghost use Rattle.std.specs.Prelude.{◌≡◌};
ghost use Rattle.calendar.specs.Highest.{highest_of};

use crate::Rolled;

// The highest field that took a carry. The seconds take one on every tick.
#[tactic(auto, unfolding(crate::specs::Highest::highest_of))]
pub(crate) fn highest(minutes: bool, hours: bool, date: bool, month: bool, year: bool) -> Rolled
    ensures { result ≡ highest_of minutes hours date month year }
{
    if year {
        Rolled::Year
    } else if month {
        Rolled::Month
    } else if date {
        Rolled::Date
    } else if hours {
        Rolled::Hours
    } else if minutes {
        Rolled::Minutes
    } else {
        Rolled::Seconds
    }
}
