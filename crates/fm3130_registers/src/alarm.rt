// SPDX-License-Identifier: Apache-2.0
// A field of the alarm beside a field of the calendar.
ghost use Rattle.std.specs.Prelude.{◌≡◌};
ghost use Rattle.fm3130_registers.specs.Alarm.{agrees};

use crate::map::MATCH;
use bits::has;

// Whether an alarm field lets a calendar field pass: it has Match, or it is equal.
pub fn agrees(alarm: u8, field: u8) -> bool
    ensures { result ≡ agrees alarm field }
{
    has(alarm, MATCH) | (alarm % 128 == field)
}
