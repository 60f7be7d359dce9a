// SPDX-License-Identifier: Apache-2.0
// A state's image: as a value, over a buffer, or over an image that is accepted already.
ghost use Rattle.std.specs.Prelude.{◌≡◌, ◌≤◌, length, drop};
ghost use Rattle.std.proofs.lemmas.List.Edits.{sets};
ghost use Rattle.fm3130_companion.specs.Registers.{register_bytes};
ghost use Rattle.fm3130_image.specs.Image.{image_size, calendar_bytes, image_of};
ghost use Rattle.fm3130_image.specs.Code.Accepting.{the_end, companion_bytes};

use crate::LENGTH;
use crate::places::{
    ALARM_DATE_AT, ALARM_HOURS_AT, ALARM_MINUTES_AT, ALARM_MONTH_AT, ALARM_SECONDS_AT, CONTROL_AT,
    CORE_SECONDS_AT, SECONDS_AT, SETUP_AT, TRIM_AT,
};
use bus::Bus;
use bus_image::bytes::copy;
use bus_image::layout::write_bus;
use bus_image::places::{COMPANION_ADDRESS_AT, LAYOUT_AT, MARK_HIGH_AT, MARK_LOW_AT};
use calendar::Calendar;
use fm3130::State;
use fm3130_companion::{Companion, Registers};

// Writes a calendar over seven bytes of an image, from a place on.
pub fn write_calendar(calendar: Calendar, image: &mut [u8], at: usize)
    requires { (length image.old ≡ image_size) × (at ≤ 57) }
    ensures { image.new ≡ sets image.old at (calendar_bytes calendar) }
{
    image[at] = calendar.seconds;
    image[at + 1] = calendar.minutes;
    image[at + 2] = calendar.hours;
    image[at + 3] = calendar.day;
    image[at + 4] = calendar.date;
    image[at + 5] = calendar.month;
    image[at + 6] = calendar.year;
}

// Writes registers over an image's first 15 bytes.
fn write_registers(registers: Registers, image: &mut [u8])
    requires { length image.old ≡ image_size }
    ensures { image.new ≡ sets image.old 0 (register_bytes registers) }
{
    image[CONTROL_AT] = registers.control;
    image[TRIM_AT] = registers.trim;
    write_calendar(registers.time, image, SECONDS_AT);
    image[ALARM_SECONDS_AT] = registers.alarm.seconds;
    image[ALARM_MINUTES_AT] = registers.alarm.minutes;
    image[ALARM_HOURS_AT] = registers.alarm.hours;
    image[ALARM_DATE_AT] = registers.alarm.date;
    image[ALARM_MONTH_AT] = registers.alarm.month;
    image[SETUP_AT] = registers.setup;
}

// Writes a companion over an image's first 23 bytes.
pub fn write_companion(companion: Companion, image: &mut [u8])
    requires { length image.old ≡ image_size }
    ensures { image.new ≡ sets image.old 0 (companion_bytes companion) }
{
    write_registers(companion.registers, image);
    write_calendar(companion.core, image, CORE_SECONDS_AT);
    image[COMPANION_ADDRESS_AT] = companion.address;
}

// Writes a state's image over one that is accepted: its first 30 bytes, since the others are those of every image.
pub fn write_over(state: State, image: &mut [u8])
    requires { (length image.old ≡ image_size) × (drop 30 image.old ≡ the_end) }
    ensures { image.new ≡ image_of state }
{
    let State {
        power,
        phase,
        address,
        companion,
    } = state;
    write_companion(companion, image);
    let bus = Bus {
        power,
        phase,
        address,
    };
    write_bus(image, bus);
}

// The image that a state writes: its first 30 bytes over zeros and the mark.
pub fn image_of(state: State) -> [u8; LENGTH]
    ensures { result ≡ image_of state }
{
    let mut image = [0; LENGTH];
    image[MARK_HIGH_AT] = 0x31;
    image[MARK_LOW_AT] = 0x30;
    image[LAYOUT_AT] = 0x01;
    write_over(state, &mut image);
    image
}

// Writes a state's image over a buffer of 64 bytes.
pub fn write_image(state: State, image: &mut [u8])
    requires { length image.old ≡ image_size }
    ensures { image.new ≡ image_of state }
{
    copy(&image_of(state), image);
}
