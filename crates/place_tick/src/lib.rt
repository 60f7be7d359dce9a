// SPDX-License-Identifier: Apache-2.0
// A one-second tick of the companion where it lies, in its image.
// Stays (fixed): an image is a slice in every public function here; `[u8; 64]` is a narrower type, which asks more of callers.
#![tactic(auto)]

ghost use Rattle.std.specs.Prelude.{◌≡◌, true, length};
ghost use Rattle.calendar.specs.Next.{is_valid, next_of};
ghost use Rattle.fm3130_companion.specs.Tick.{matches, counted_of};
ghost use Rattle.fm3130_companion.specs.Part.{tick_of, rolled_of};
ghost use Rattle.fm3130.specs.Code.Bus.{with_companion};
ghost use Rattle.fm3130.specs.declared.State.{State};
ghost use Rattle.fm3130_image.specs.Image.{image_size, image_of};
ghost use Rattle.place_companion.specs.Code.Desk.{with_core};
ghost use Rattle.place_tick.specs.Code.Tick.{tell_of, is_ticking, one_more};
ghost use Rattle.place_companion.specs.Code.Lying.{Becomes};

use bits::has;
use bus_image::phases::POWER_OFF;
use bus_image::places::SUPPLIES_AT;
use calendar::{Calendar, Rolled};
use fm3130_image::places::{
    ALARM_DATE_AT, ALARM_HOURS_AT, ALARM_MINUTES_AT, ALARM_MONTH_AT, ALARM_SECONDS_AT, CONTROL_AT,
    CORE_DATE_AT, CORE_HOURS_AT, CORE_MINUTES_AT, CORE_MONTH_AT, CORE_SECONDS_AT, TRIM_AT,
};
use fm3130_image::read::calendar_at;
use fm3130_image::write::write_calendar;
use fm3130_registers::alarm::agrees;
use fm3130_registers::control::told;
use fm3130_registers::map::{OSCEN, R, W};
use place_companion::show_core;
use std::num::wrapping_add_u8;

// Whether the core stands at the alarm. Most often the seconds say that it does not.
fn rings(image: &[u8]) -> bool
    requires { length image.now ≡ image_size }
    ensures { (s : State) → image.now ≡ image_of s
        → result ≡ matches s.companion.registers.alarm s.companion.core }
{
    if !agrees(image[ALARM_SECONDS_AT], image[CORE_SECONDS_AT]) {
        return false;
    }
    agrees(image[ALARM_MINUTES_AT], image[CORE_MINUTES_AT])
        & agrees(image[ALARM_HOURS_AT], image[CORE_HOURS_AT])
        & agrees(image[ALARM_DATE_AT], image[CORE_DATE_AT])
        & agrees(image[ALARM_MONTH_AT], image[CORE_MONTH_AT])
}

// What a tick tells: the flags rise, and 02h to 08h follow the core where R and W are 0.
fn tell(image: &mut [u8], rung: bool, century: bool)
    requires { length image.old ≡ image_size }
    ensures { Becomes image.old (λ s. with_companion s (tell_of s.companion rung century))
        image.new }
{
    let control = image[CONTROL_AT];
    image[CONTROL_AT] = told(control, rung, century);
    if has(control, W) | has(control, R) {
        return;
    }
    show_core(image);
}

// One more in two decimal digits, which are not 99: where the low digit is 9 it goes to 0 and the high digit one up.
fn one_more(byte: u8) -> u8
    ensures { result ≡ one_more byte }
{
    if byte % 16 == 9 {
        return wrapping_add_u8(byte, 7);
    }
    wrapping_add_u8(byte, 1)
}

// The core takes a calendar.
fn put_core(image: &mut [u8], calendar: Calendar)
    requires { length image.old ≡ image_size }
    ensures { Becomes image.old (λ s. with_companion s (with_core s.companion calendar))
        image.new }
{
    write_calendar(calendar, image, CORE_SECONDS_AT);
}

// A tick that counts with which a minute begins.
fn carried(image: &mut [u8]) -> Rolled
    requires { length image.old ≡ image_size }
    ensures { (s : State) → image.old ≡ image_of s → is_valid s.companion.core ≡ true
        → (result ≡ (next_of s.companion.core).rolled)
        × (image.new ≡ image_of (with_companion s (counted_of s.companion))) }
{
    let next = calendar_at(image, CORE_SECONDS_AT).next();
    put_core(image, next.calendar);
    let rung = rings(image);
    tell(image, rung, next.century);
    next.rolled
}

// A tick that counts, of a valid core. 59 of 60 move the seconds alone.
pub fn counted(image: &mut [u8]) -> Rolled
    requires { length image.old ≡ image_size }
    ensures { (s : State) → image.old ≡ image_of s → is_valid s.companion.core ≡ true
        → (result ≡ (next_of s.companion.core).rolled)
        × (image.new ≡ image_of (with_companion s (counted_of s.companion))) }
{
    let seconds = image[CORE_SECONDS_AT];
    if seconds == 0x59 {
        return carried(image);
    }
    image[CORE_SECONDS_AT] = one_more(seconds);
    let rung = rings(image);
    tell(image, rung, false);
    Rolled::Seconds
}

// A tick.
pub fn tick(image: &mut [u8]) -> Rolled
    requires { length image.old ≡ image_size }
    ensures { (s : State) → image.old ≡ image_of s
        → (result ≡ rolled_of s.companion) × (image.new ≡ image_of (with_companion s (tick_of s.companion))) }
{
    if has(image[TRIM_AT], OSCEN) {
        return Rolled::Nothing;
    }
    if calendar_at(image, CORE_SECONDS_AT).is_valid() {
        return counted(image);
    }
    tell(image, false, false);
    Rolled::Nothing
}

// What a tick says, dropped knowingly: the one place where a list of events drops it. A list is answered by a byte for each
// event, and these have no room for the field that changed. Who wants it has each tick done alone, or compares the
// calendars before the list and after it.
pub fn unsaid(rolled: Rolled)
    ensures { result ≡ tt }
{}

// Whether ticks move the core: a supply is present, the oscillator is on, and the core is a date and a time that exist.
pub fn is_ticking(image: &[u8]) -> bool
    requires { length image.now ≡ image_size }
    ensures { (s : State) → image.now ≡ image_of s → result ≡ is_ticking s }
{
    if image[SUPPLIES_AT] == POWER_OFF {
        return false;
    }
    if has(image[TRIM_AT], OSCEN) {
        return false;
    }
    calendar_at(image, CORE_SECONDS_AT).is_valid()
}
