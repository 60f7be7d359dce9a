// SPDX-License-Identifier: Apache-2.0
// Many ticks on the bytes of an image: 00h, the core and, where they follow it, 02h to 08h are written over; every other
// byte is only read, or not at all.
ghost use Rattle.std.specs.Prelude.{◌≡◌, ◌≤◌, ◌<◌, length, set};
ghost use Rattle.std.proofs.lemmas.List.Edits.{sets};
ghost use Rattle.calendar_days.specs.After.{most_ticks};
ghost use Rattle.fm3130_image.specs.Places.{CONTROL_AT, CORE_SECONDS_AT};
ghost use Rattle.fm3130_image.specs.Image.{image_size, calendar_bytes};
ghost use Rattle.c_catch_up.specs.Code.CatchUp.{alarm_at, followed_on, CountedOn};

use crate::ticks::{Left, advanced};
use bits::has;
use calendar::Calendar;
use fm3130_companion::Alarm;
use fm3130_image::places::{
    ALARM_DATE_AT, ALARM_HOURS_AT, ALARM_MINUTES_AT, ALARM_MONTH_AT, ALARM_SECONDS_AT, CONTROL_AT,
    CORE_SECONDS_AT, SECONDS_AT,
};
use fm3130_image::read::calendar_at;
use fm3130_image::write::write_calendar;
use fm3130_registers::map::{R, W};

// Bytes 9 to 13, as an alarm.
fn alarm_at(image: &[u8]) -> Alarm
    requires { length image.now ≡ image_size }
    ensures { result ≡ alarm_at image.now }
{
    Alarm {
        seconds: image[ALARM_SECONDS_AT],
        minutes: image[ALARM_MINUTES_AT],
        hours: image[ALARM_HOURS_AT],
        date: image[ALARM_DATE_AT],
        month: image[ALARM_MONTH_AT],
    }
}

// Writes what ticks left of 00h and of the core over byte 0 and bytes 15 to 21.
fn write_left(left: Left, image: &mut [u8])
    requires { length image.old ≡ image_size }
    ensures { image.new ≡ sets (set image.old CONTROL_AT left.control) CORE_SECONDS_AT (calendar_bytes left.core) }
{
    image[CONTROL_AT] = left.control;
    write_calendar(left.core, image, CORE_SECONDS_AT);
}

// Lets 02h to 08h take the core, unless R or W is 1: then they stay.
#[tactic(auto, using(crate::proofs::Written::follow_kept, crate::proofs::Written::follow_written))]
fn let_time_follow(control: u8, core: Calendar, image: &mut [u8])
    requires { length image.old ≡ image_size }
    ensures { image.new ≡ followed_on control core image.old }
{
    if !has(control, W) && !has(control, R) {
        write_calendar(core, image, SECONDS_AT);
    }
}

// Ticks that count, on the image of a state: the core goes on by all of them, the flags of all rise, and 02h to 08h follow
// the last core. An invalid core stays and raises nothing, so that nothing but 02h to 08h is written: it has a way of its
// own to the end.
#[tactic(auto, using(calendar::proofs::Tests::true_test))]
pub(crate) fn count(image: &mut [u8], n: u32)
    requires { (length image.old ≡ image_size) × (0 < n) × (n ≤ most_ticks) }
    ensures { CountedOn n image.old image.new }
{
    let control = image[CONTROL_AT];
    let core = calendar_at(image, CORE_SECONDS_AT);
    if !core.is_valid() {
        let_time_follow(control, core, image);
        return;
    }
    let last = advanced(control, alarm_at(image), core, n);
    write_left(last, image);
    let_time_follow(control, last.core, image);
}
