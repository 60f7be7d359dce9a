// SPDX-License-Identifier: Apache-2.0
// The companion in a transfer where it lies, in its image: a register at its address, the core behind the registers, the
// companion's own address behind the core. Nothing is read out of the image to be written back.
// Stays (fixed): an image is a slice in every public function here; `[u8; 64]` is a narrower type, which asks more of callers.
#![tactic(auto)]

ghost use Rattle.std.specs.Prelude.{◌≡◌, ◌≤◌, length, get_or};
ghost use Rattle.fm3130_registers.specs.Map.{LAST};
ghost use Rattle.fm3130_companion.specs.Part.{aim_of, store_of, load_of, loaded_of};
ghost use Rattle.fm3130.specs.Code.Bus.{with_companion};
ghost use Rattle.fm3130.specs.declared.State.{State};
ghost use Rattle.bus_image.specs.Places.{COMPANION_ADDRESS_AT};
ghost use Rattle.fm3130_image.specs.Image.{image_size, image_of};
ghost use Rattle.place_companion.specs.Code.Desk.{core_shown, core_loaded, shows_core, control_loaded, control_taken};
ghost use Rattle.place_companion.specs.Code.Lying.{Becomes, Took};

use bits::has;
use bus_image::places::COMPANION_ADDRESS_AT;
use fm3130_image::places::{
    CONTROL_AT, CORE_DATE_AT, CORE_DAY_AT, CORE_HOURS_AT, CORE_MINUTES_AT, CORE_MONTH_AT,
    CORE_SECONDS_AT, CORE_YEAR_AT, DATE_AT, DAY_AT, HOURS_AT, MINUTES_AT, MONTH_AT, SECONDS_AT,
    TRIM_AT, YEAR_AT,
};
use fm3130_image::read::calendar_at;
use fm3130_registers::control::{control_after, flags_after, w_falls};
use fm3130_registers::map::{CONTROL, LAST, R, TRIM, W, YEARS, next_address};
use fm3130_registers::stored::{stored, trim_after};

// An address byte: taken where a register has that address.
pub fn aim(image: &mut [u8], byte: u8) -> bool
    requires { length image.old ≡ image_size }
    ensures { (s : State) → image.old ≡ image_of s
        → Took s (aim_of s.companion byte) result image.new }
{
    if byte > LAST {
        return false;
    }
    image[COMPANION_ADDRESS_AT] = byte;
    true
}

// 02h to 08h take the core.
pub fn show_core(image: &mut [u8])
    requires { length image.old ≡ image_size }
    ensures { Becomes image.old (λ s. with_companion s (core_shown s.companion)) image.new }
{
    image[SECONDS_AT] = image[CORE_SECONDS_AT];
    image[MINUTES_AT] = image[CORE_MINUTES_AT];
    image[HOURS_AT] = image[CORE_HOURS_AT];
    image[DAY_AT] = image[CORE_DAY_AT];
    image[DATE_AT] = image[CORE_DATE_AT];
    image[MONTH_AT] = image[CORE_MONTH_AT];
    image[YEAR_AT] = image[CORE_YEAR_AT];
}

// The core takes 02h to 08h.
fn load_core(image: &mut [u8])
    requires { length image.old ≡ image_size }
    ensures { Becomes image.old (λ s. with_companion s (core_loaded s.companion)) image.new }
{
    image[CORE_SECONDS_AT] = image[SECONDS_AT];
    image[CORE_MINUTES_AT] = image[MINUTES_AT];
    image[CORE_HOURS_AT] = image[HOURS_AT];
    image[CORE_DAY_AT] = image[DAY_AT];
    image[CORE_DATE_AT] = image[DATE_AT];
    image[CORE_MONTH_AT] = image[MONTH_AT];
    image[CORE_YEAR_AT] = image[YEAR_AT];
}

// Whether 02h to 08h take the core where a byte is written to 00h and W does not fall: R rises, or R and W are 0.
fn shows_core(old: u8, byte: u8) -> bool
    ensures { result ≡ shows_core old byte }
{
    if has(byte, R) {
        return !has(old, R);
    }
    !has(byte, W)
}

// A byte for 00h with which W falls: refused where 02h to 08h hold no date and time that exist.
fn load_control(image: &mut [u8], byte: u8) -> bool
    requires { length image.old ≡ image_size }
    ensures { (s : State) → image.old ≡ image_of s
        → Took s (control_loaded s.companion byte) result image.new }
{
    let time = calendar_at(image, SECONDS_AT);
    if !time.is_valid() {
        return false;
    }
    image[CONTROL_AT] = control_after(image[CONTROL_AT], byte);
    load_core(image);
    true
}

// A byte for 00h.
fn store_control(image: &mut [u8], byte: u8) -> bool
    requires { length image.old ≡ image_size }
    ensures { (s : State) → image.old ≡ image_of s
        → Took s (control_taken s.companion byte) result image.new }
{
    let old = image[CONTROL_AT];
    if w_falls(old, byte) {
        return load_control(image, byte);
    }
    image[CONTROL_AT] = control_after(old, byte);
    if !shows_core(old, byte) {
        return true;
    }
    show_core(image);
    true
}

// A data byte at its eighth clock.
pub fn store(image: &mut [u8], byte: u8) -> bool
    requires { (length image.old ≡ image_size) × (get_or image.old COMPANION_ADDRESS_AT 0 ≤ LAST) }
    ensures { (s : State) → image.old ≡ image_of s
        → Took s (store_of s.companion byte) result image.new }
{
    let address = image[COMPANION_ADDRESS_AT];
    image[COMPANION_ADDRESS_AT] = next_address(address);
    if address == CONTROL {
        return store_control(image, byte);
    }
    if address == TRIM {
        image[TRIM_AT] = trim_after(image[CONTROL_AT], image[TRIM_AT], byte);
        return true;
    }
    if (address <= YEARS) & !has(image[CONTROL_AT], W) {
        return true;
    }
    let at = address as usize;
    image[at] = stored(address, byte);
    true
}

// The byte that a read sends.
pub fn load(image: &[u8]) -> u8
    requires { (length image.now ≡ image_size) × (get_or image.now COMPANION_ADDRESS_AT 0 ≤ LAST) }
    ensures { (s : State) → image.now ≡ image_of s → result ≡ load_of s.companion }
{
    let at = image[COMPANION_ADDRESS_AT] as usize;
    image[at]
}

// The end of a read of a byte: one of 00h clears the flags that the byte showed.
pub fn loaded(image: &mut [u8], byte: u8)
    requires { (length image.old ≡ image_size) × (get_or image.old COMPANION_ADDRESS_AT 0 ≤ LAST) }
    ensures { Becomes image.old (λ s. with_companion s (loaded_of s.companion byte))
        image.new }
{
    let address = image[COMPANION_ADDRESS_AT];
    image[COMPANION_ADDRESS_AT] = next_address(address);
    if address == CONTROL {
        image[CONTROL_AT] = flags_after(image[CONTROL_AT], byte);
    }
}
