// SPDX-License-Identifier: Apache-2.0
// A calendar's place in the century: its month, its day and the second of that day; and the calendar at such a place.
ghost use Rattle.std.specs.Prelude.{◌≡◌, ◌+◌, ◌*◌, ◌/◌, ◌%◌, ◌<◌, T};
ghost use Rattle.calendar.specs.Field.{value, bcd};
ghost use Rattle.calendar.specs.Next.{is_valid};
ghost use Rattle.calendar.specs.Instant.{time_of};
ghost use Rattle.calendar_days.specs.Code.Places.{moment_of, PlacedAt};

use crate::starts::{month_start, place_of};
use calendar::Calendar;
use calendar::fields::{bcd, value};

// Where a valid calendar stands, all counted from 0: its month and its day of the century, and the second of that day.
#[derive(Clone, Copy)]
pub struct Moment {
    pub month: u32,
    pub day: u32,
    pub second: u32,
}

// The number that two decimal digits stand for, wide enough for sums of seconds.
pub fn number(byte: u8) -> u32
    ensures { (result ≡ value byte) × (result < 256) }
{
    u32::from(value(byte))
}

// The byte whose two decimal digits stand for a number.
fn digits(number: u32) -> u8
    requires { number < 100 }
    ensures { result ≡ bcd number }
{
    bcd(number as u8)
}

// The seconds of the day.
fn time(calendar: Calendar) -> u32
    ensures { result ≡ time_of calendar }
{
    (number(calendar.hours) * 60 + number(calendar.minutes)) * 60 + number(calendar.seconds)
}

// Where a valid calendar stands.
#[tactic(auto, using(calendar::proofs::Valid::valid_facts, crate::proofs::Months::month_start_most, crate::proofs::Standing::stood))]
pub fn standing(calendar: Calendar) -> Moment
    requires { T (is_valid calendar) }
    ensures { result ≡ moment_of calendar }
{
    let month = 12 * number(calendar.year) + (number(calendar.month) - 1);
    let day = month_start(month) + (number(calendar.date) - 1);
    Moment {
        month,
        day,
        second: time(calendar),
    }
}

// The year that a month of this century or the next is in, by its two digits.
fn year_of(month: u32) -> u32
    requires { month < 2400 }
    ensures { result ≡ month / 12 % 100 }
{
    let year = month / 12;
    if year < 100 { year } else { year - 100 }
}

// The calendar at a second of a day of this century or the next, on a day of the week.
#[tactic(auto, using(crate::proofs::Later::date_below, crate::proofs::Later::placed_on))]
pub(crate) fn at(day: u32, second: u32, weekday: u8) -> Calendar
    requires { (day < 73000) × (second < 86400) }
    ensures { PlacedAt (day * 86400 + second) weekday result }
{
    let minute = second / 60;
    let hour = second / 3600;
    let place = place_of(day);
    Calendar {
        seconds: digits(second - minute * 60),
        minutes: digits(minute - hour * 60),
        hours: digits(hour),
        day: weekday,
        date: digits(place.past + 1),
        month: digits(place.month % 12 + 1),
        year: digits(year_of(place.month)),
    }
}
