// SPDX-License-Identifier: Apache-2.0
// How many days a month has, by cases: as a number, and as the two digits of its last date.
ghost use Rattle.std.specs.Prelude.{◌≡◌};
ghost use Rattle.calendar.specs.Field.{value, bcd, in_field};
ghost use Rattle.calendar.specs.Month.{month_length, pick};

// How many days a month has in a year, both as numbers; 0 where there is no such month. February has a day more when
// the year divides by 4. Of the others those with 31 days and those with 30 take turns, from January on and from August
// on anew: so no list of them stands in memory.
#[tactic(auto, unfolding(crate::specs::Month::month_length))]
pub(crate) fn month_length(month: u8, year: u8) -> u8
    ensures { result ≡ month_length month year }
{
    match month {
        0 | 13.. => 0,
        2 if year % 4 == 0 => 29,
        2 => 28,
        _ => 30 + (month + month / 8) % 2,
    }
}

// The last date of a month, all as two decimal digits; 0 where the byte is no month. Ten is two more than a multiple of 4, so
// the year divides by 4 exactly if twice its first digit and its second do together; of the second the last two bits are
// enough.
#[tactic(auto, using(crate::proofs::Digits::february_leap, crate::proofs::Digits::february_common), unfolding(crate::specs::Month::month_length, crate::specs::Field::in_field))]
pub(crate) fn last_date(month: u8, year: u8) -> u8
    ensures { result ≡ pick (in_field 1 12 month) (bcd (month_length (value month) (value year))) 0 }
{
    match month {
        1 | 3 | 5 | 7 | 8 | 0x10 | 0x12 => 0x31,
        4 | 6 | 9 | 0x11 => 0x30,
        2 if (year / 16 * 2 + year % 4) % 4 == 0 => 0x29,
        2 => 0x28,
        _ => 0,
    }
}
