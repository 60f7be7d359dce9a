// SPDX-License-Identifier: Apache-2.0
// The state in an image, and its parts, by their places.
ghost use Rattle.std.specs.Prelude.{◌≡◌, ◌≤◌, length};
ghost use Rattle.fm3130_companion.specs.Registers.{registers_of};
ghost use Rattle.fm3130_image.specs.Image.{image_size, calendar_at, companion_at, candidate};

use crate::places::{
    ALARM_DATE_AT, ALARM_HOURS_AT, ALARM_MINUTES_AT, ALARM_MONTH_AT, ALARM_SECONDS_AT, CONTROL_AT,
    CORE_SECONDS_AT, SECONDS_AT, SETUP_AT, TRIM_AT,
};
use bus::Bus;
use bus_image::layout::bus_at;
use bus_image::places::COMPANION_ADDRESS_AT;
use calendar::Calendar;
use fm3130::State;
use fm3130_companion::{Alarm, Companion, Registers};

// Seven bytes from a place on, as a calendar.
pub fn calendar_at(image: &[u8], at: usize) -> Calendar
    requires { (at ≤ 15) × (length image.now ≡ image_size) }
    ensures { result ≡ calendar_at image.now at }
{
    Calendar {
        seconds: image[at],
        minutes: image[at + 1],
        hours: image[at + 2],
        day: image[at + 3],
        date: image[at + 4],
        month: image[at + 5],
        year: image[at + 6],
    }
}

// The first 15 bytes, as registers.
fn registers_of(image: &[u8]) -> Registers
    requires { length image.now ≡ image_size }
    ensures { result ≡ registers_of image.now }
{
    Registers {
        control: image[CONTROL_AT],
        trim: image[TRIM_AT],
        time: calendar_at(image, SECONDS_AT),
        alarm: Alarm {
            seconds: image[ALARM_SECONDS_AT],
            minutes: image[ALARM_MINUTES_AT],
            hours: image[ALARM_HOURS_AT],
            date: image[ALARM_DATE_AT],
            month: image[ALARM_MONTH_AT],
        },
        setup: image[SETUP_AT],
    }
}

// The first 23 bytes, as a companion.
pub fn companion_at(image: &[u8]) -> Companion
    requires { length image.now ≡ image_size }
    ensures { result ≡ companion_at image.now }
{
    Companion {
        registers: registers_of(image),
        core: calendar_at(image, CORE_SECONDS_AT),
        address: image[COMPANION_ADDRESS_AT],
    }
}

// The one state that could write an image of 64 bytes.
pub fn state_at(image: &[u8]) -> State
    requires { length image.now ≡ image_size }
    ensures { result ≡ candidate image.now }
{
    let Bus {
        power,
        phase,
        address,
    } = bus_at(image);
    State {
        power,
        phase,
        address,
        companion: companion_at(image),
    }
}
