// SPDX-License-Identifier: Apache-2.0
// Runs the proved calendar and prints what it does: the calendar's cases of the table, K1 to K7, on the dates that
// calendar/specs/Cases has, and then, for every year of the century, a sum over all its midnights. What it prints is
// compared with what the second program says.
#![tactic(auto)]

use calendar::{Advanced, Calendar};
use std::{fmt, io};

// A calendar as the table writes it: time, date, day. Two digits for each BCD byte.
#[derive(Clone, Copy)]
struct Shown(Calendar);

impl fmt::Display for Shown {
    fn fmt<W: fmt::Write>(&self, f: &mut fmt::Formatter<W>) -> fmt::Result {
        let Calendar {
            seconds,
            minutes,
            hours,
            day,
            date,
            month,
            year,
        } = self.0;
        write!(
            f,
            "{hours:02x}:{minutes:02x}:{seconds:02x} {date:02x}/{month:02x}/{year:02x} day {day}"
        )
    }
}

// One case: a calendar, and what the next second makes of it.
fn print_case(rt: &impl Print, name: &str, from: Calendar) -> io::Result<()> {
    let next = from.next();
    let flag = if next.century { " CF" } else { "" };
    println!(rt; "{name} {} -> {}{flag}", Shown(from), Shown(next.calendar))
}

// The last second of a day.
fn last_of(day: u8, date: u8, month: u8, year: u8) -> Calendar {
    Calendar {
        seconds: 0x59,
        minutes: 0x59,
        hours: 0x23,
        day,
        date,
        month,
        year,
    }
}

fn print_cases(rt: &impl Print) -> io::Result<()> {
    let noon = Calendar {
        seconds: 0x09,
        minutes: 0x34,
        hours: 0x12,
        day: 6,
        date: 0x15,
        month: 0x06,
        year: 0x24,
    };
    let evening = Calendar {
        seconds: 0x59,
        minutes: 0x59,
        hours: 0x19,
        ..noon
    };
    let no_such_date = Calendar {
        seconds: 0x00,
        minutes: 0x00,
        day: 3,
        date: 0x31,
        month: 0x04,
        ..noon
    };
    let cases = [
        ("K1", last_of(7, 0x31, 0x12, 0x99)),
        ("K2", last_of(4, 0x28, 0x02, 0x08)),
        ("K3", last_of(6, 0x28, 0x02, 0x09)),
        ("K4", last_of(2, 0x29, 0x02, 0x00)),
        ("K5", noon),
        ("K6", evening),
        ("K7", no_such_date),
    ];
    for (name, from) in cases {
        print_case(rt, name, from)?;
    }
    Ok(())
}

// A sum with one more byte; the remainder keeps it small.
fn with_byte(sum: u32, byte: u8) -> u32 {
    (sum % 1000003 * 31 + u32::from(byte)) % 1000003
}

// A sum with one more midnight: the seven bytes after it, and whether the century ended.
fn with_midnight(sum: u32, next: Advanced) -> u32 {
    let after = next.calendar;
    [
        after.seconds,
        after.minutes,
        after.hours,
        after.day,
        after.date,
        after.month,
        after.year,
        u8::from(next.century),
    ]
    .iter()
    .fold(sum, |sum, byte| with_byte(sum, *byte))
}

// Every midnight of the century, each day reached from the last second of the one before; a line at the end of a year.
fn print_midnights(rt: &impl Print) -> io::Result<()> {
    let mut today = last_of(1, 0x01, 0x01, 0x00);
    let mut sum = 0;
    for _ in 0..36525 {
        let next = today.next();
        sum = with_midnight(sum, next);
        let Calendar {
            day,
            date,
            month,
            year,
            ..
        } = next.calendar;
        if year != today.year {
            println!(rt; "year {:02x} sum {sum}", today.year)?;
        }
        today = last_of(day, date, month, year);
    }
    Ok(())
}

fn main(rt: HostRuntime) -> io::Result<()> {
    print_cases(&rt)?;
    print_midnights(&rt)
}
