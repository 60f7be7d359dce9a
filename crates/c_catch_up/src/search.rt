// SPDX-License-Identifier: Apache-2.0
// Whether one of many seconds rings the alarm, without looking at each. The seconds of a stretch that pass lie in a
// stretch of minutes, those in a stretch of hours, those in a stretch of days; the days are looked at month by month, and
// months of another name than the one asked for are passed over.
ghost use Rattle.std.specs.Prelude.{◌≡◌, ◌+◌, ◌≤◌, ◌<◌, leb, unwrap_or};
ghost use Rattle.calendar.specs.Instant.{month_start};
ghost use Rattle.calendar_days.specs.Code.Places.{Standing};
ghost use Rattle.calendar_days.specs.After.{most_ticks};
ghost use Rattle.c_catch_up.specs.Code.Search.{passes, Asks, Some, Tells, DayRings, Narrowed, Skips};
ghost use Rattle.c_catch_up.specs.Code.Ticks.{TellsRung};

use bits::has;
use calendar_days::places::{Moment, number};
use calendar_days::starts::month_start;
use fm3130_companion::Alarm;
use fm3130_registers::map::MATCH;

// Numbers that follow each other, the last not included: seconds, minutes, hours or days of the century.
// Stays (plain): it has a method of its own, `narrowed`, which a `Range` cannot be given, and is passed on by copy.
#[derive(Clone, Copy)]
pub struct Stretch {
    pub from: u32,
    pub to: u32,
}

// The number that an alarm field without Match asks for, if its digits are any. No field of a calendar holds 255.
#[tactic(auto, using(crate::proofs::Narrow::asks_none, crate::proofs::Narrow::asks_one))]
fn asked(alarm: u8) -> Option<u32>
    ensures { Asks alarm (unwrap_or result 255) }
{
    let byte = alarm % 128;
    if byte % 16 < 10 {
        Some(number(byte))
    } else {
        None
    }
}

// Whether an alarm field lets a number pass.
#[tactic(auto, using(crate::proofs::Narrow::passes_is))]
fn passes(alarm: u8, number: u32) -> bool
    requires { number < 255 }
    ensures { result ≡ passes alarm number }
{
    has(alarm, MATCH) || asked(alarm) == Some(number)
}

impl Stretch {
    fn none() -> Stretch
        ensures { result ≡ record { from = 0; to = 0 } }
    {
        Stretch { from: 0, to: 0 }
    }

    // Whether there is none.
    fn is_empty(self) -> bool
        ensures { result ≡ leb self.to self.from }
    {
        self.to <= self.from
    }

    // The numbers of the next larger unit, `span` of this one's, in which one of these passes: from the first one's to the
    // last one's, or, where a number is asked for, those in which it comes.
    #[tactic(auto, using(crate::proofs::Narrow::narrowing))]
    fn narrowed(self, alarm: u8, span: u32) -> Stretch
        requires { (0 < span) × (span ≤ 60) × (self.from < self.to) × (self.to ≤ 4000000000) }
        ensures { Narrowed alarm span self result }
    {
        if has(alarm, MATCH) {
            return Stretch {
                from: self.from / span,
                to: (self.to - 1) / span + 1,
            };
        }
        match asked(alarm) {
            Some(number) if number < span => {
                let slack = span - 1 - number;
                Stretch {
                    from: (self.from + slack) / span,
                    to: (self.to + slack) / span,
                }
            }
            _ => Stretch::none(),
        }
    }
}

// Whether a day rings that is in a month and from `from` to below `to`. A month has each date once at most.
#[tactic(auto, using(calendar_days::proofs::Months::month_start_most, crate::proofs::Rings::rings_any))]
fn rings_in(alarm: Alarm, month: u32, from: u32, to: u32) -> bool
    requires { (month < 2399) × (month_start month ≤ from) × (from < to) }
    ensures { Tells result (Some (λ d. (d < month_start (month + 1)) × DayRings alarm d) from to) }
{
    if !passes(alarm.month, month % 12 + 1) {
        return false;
    }
    let next = month_start(month + 1);
    if has(alarm.date, MATCH) {
        return from < next;
    }
    let Some(date) = asked(alarm.date) else {
        return false;
    };
    let end = month_start(month) + date;
    from < end && end <= next.min(to)
}

// The next month to look at: the one after, or, where a month of the year is asked for, the next of that name; the same of
// the next year where there is no such name. A number asked for is at most 255, and 264 is whole years.
#[tactic(auto, using(crate::proofs::Narrow::skips_none, crate::proofs::Narrow::skips_one))]
fn next_month(alarm: u8, month: u32) -> u32
    requires { month < 2400 }
    ensures { Skips alarm month result }
{
    if has(alarm, MATCH) {
        return month + 1;
    }
    match asked(alarm) {
        Some(name) => month + 12 - (month + 265 - name) % 12,
        None => month + 12,
    }
}

// Whether one of some days rings, month by month from one on that starts before them. Where neither a date nor a month is
// asked for, the first does.
fn rings_on(alarm: Alarm, first: u32, days: Stretch) -> bool
    requires { (month_start first ≤ days.from) × (days.from < days.to) × (days.to ≤ 72000) }
    ensures { Tells result (Some (DayRings alarm) days.from days.to) }
{
    if has(alarm.date, MATCH) && has(alarm.month, MATCH) {
        return true;
    }
    // Stays (plain): it goes from month to month, and by years where a month of the year is asked for, not from day to day.
    let mut day = days.from;
    let mut month = first;
    while day < days.to {
        if rings_in(alarm, month, day, days.to) {
            return true;
        }
        month = next_month(alarm.month, month);
        day = day.max(month_start(month));
    }
    false
}

// Whether one of up to a leap year of ticks of a valid calendar, of which it is known where it stands, brings it to the
// alarm. Each larger unit is asked only if the smaller ones left some of it.
pub(crate) fn rings_within(alarm: Alarm, from: Moment, n: u32) -> bool
    requires { (Standing from) × (0 < n) × (n ≤ most_ticks) }
    ensures { TellsRung n alarm from result }
{
    let first = from.day * 86400 + from.second + 1;
    let seconds = Stretch {
        from: first,
        to: first + n,
    };
    let minutes = seconds.narrowed(alarm.seconds, 60);
    if minutes.is_empty() {
        return false;
    }
    let hours = minutes.narrowed(alarm.minutes, 60);
    if hours.is_empty() {
        return false;
    }
    let days = hours.narrowed(alarm.hours, 24);
    if days.is_empty() {
        return false;
    }
    rings_on(alarm, from.month, days)
}
