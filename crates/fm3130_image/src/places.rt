// SPDX-License-Identifier: Apache-2.0
// Where the image holds the registers and the core (docs/IMAGE.md). What every part has stands at `bus_image::places`.

// The registers that rules name: 00h and 01h.
pub const CONTROL_AT: usize = 0;

pub const TRIM_AT: usize = 1;

// 02h to 08h, the calendar that the bus sees.
pub const SECONDS_AT: usize = 2;

pub const MINUTES_AT: usize = 3;

pub const HOURS_AT: usize = 4;

pub const DAY_AT: usize = 5;

pub const DATE_AT: usize = 6;

pub const MONTH_AT: usize = 7;

pub const YEAR_AT: usize = 8;

// 09h to 0Dh, the alarm.
pub const ALARM_SECONDS_AT: usize = 9;

pub const ALARM_MINUTES_AT: usize = 10;

pub const ALARM_HOURS_AT: usize = 11;

pub const ALARM_DATE_AT: usize = 12;

pub const ALARM_MONTH_AT: usize = 13;

// 0Eh.
pub const SETUP_AT: usize = 14;

// The core, the calendar that counts.
pub const CORE_SECONDS_AT: usize = 15;

pub const CORE_MINUTES_AT: usize = 16;

pub const CORE_HOURS_AT: usize = 17;

pub const CORE_DAY_AT: usize = 18;

pub const CORE_DATE_AT: usize = 19;

pub const CORE_MONTH_AT: usize = 20;

pub const CORE_YEAR_AT: usize = 21;

// What is the same in every image: zeros, and the mark.
pub const END_AT: usize = 30;
