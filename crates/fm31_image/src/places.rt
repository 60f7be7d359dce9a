// SPDX-License-Identifier: Apache-2.0
// Where the image holds the registers, 09h to 18h, and the snapshot (docs/FAMILY.md). What every part has stands at
// `bus_image::places`.

// 09h to 0Ch: flags, watchdog, control, event counter control.
pub const FLAGS_AT: usize = 0;

pub const WATCHDOG_AT: usize = 1;

pub const CONTROL_AT: usize = 2;

pub const COUNTING_AT: usize = 3;

// 0Dh to 10h: both counters, low bytes first.
pub const COUNTS_AT: usize = 4;

// 11h to 18h: the serial number.
pub const SN0_AT: usize = 8;

pub const SN1_AT: usize = 9;

pub const SN2_AT: usize = 10;

pub const SN3_AT: usize = 11;

pub const SN4_AT: usize = 12;

pub const SN5_AT: usize = 13;

pub const SN6_AT: usize = 14;

pub const SN7_AT: usize = 15;

// The counters that a read shows while RC is 1.
pub const SNAPSHOT_AT: usize = 16;

// Two bytes that are 0.
pub const SPARE_AT: usize = 20;

pub const SPARE_SECOND_AT: usize = 21;
