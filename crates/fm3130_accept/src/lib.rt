// SPDX-License-Identifier: Apache-2.0
// Whether an image is accepted, by tests of its bytes: no state is made of it, and nothing is written again to be
// compared. Most bytes are tested four at a time, as a machine loads them. What is read of an accepted image is the one
// state that could have written it.
#![tactic(auto)]

ghost use Rattle.std.specs.Prelude.{◌≡◌, ◌≢◌, ◌↔◌, true, false, length, OnOk, IsErrOf};
ghost use Rattle.fm3130_image.specs.Image.{image_size};
ghost use Rattle.fm3130_image.specs.Code.Accepting.{is_image};
ghost use Rattle.fm3130_image.specs.Reading.{DecodeSettled};
ghost use Rattle.fm3130.specs.Chip.{memory_size};
ghost use Rattle.fm3130_accept.specs.Admitted.{admitted};
ghost use Rattle.fm3130_accept.specs.Code.Tests.{places_within};

use bus::select::LONE;
use bus_accept::{bus_within, has_end, word};
use bus_image::layout::transfer_at;
use bus_image::places::{ADDRESS_HIGH_AT, COMPANION_ADDRESS_AT, SUPPLIES_AT};
use fm3130::State;
use fm3130_image::read::state_at;
use fm3130_image::{LENGTH, MEMORY};
use fm3130_registers::map::LAST;
use numbers::Refusal;

// The limits of bytes 0 to 24, the registers, the core and the two addresses: each byte by its place in its word, or alone. No
// word crosses byte 16, for the reason that `has_end` of `bus_accept` has. The tests of one word stand together, so that they
// become one; all are joined in the order of the definition that they meet.
fn places_within(image: &[u8]) -> bool
    requires { length image.now ≡ image_size }
    ensures { result ≡ places_within image.now }
{
    let from_control = word(image, 0);
    let from_hours = word(image, 4);
    let from_year = word(image, 8);
    let from_alarm_date = word(image, 12);
    let from_core_minutes = word(image, 16);
    let from_core_day = word(image, 18);
    (image[ADDRESS_HIGH_AT] < 0x20)
        & ((image[COMPANION_ADDRESS_AT] <= LAST)
            & (((from_control / 0x100 % 0x80 < 0x40)
                & (from_control / 0x1_0000 % 0x100 < 0x80)
                & (from_control / 0x100_0000 < 0x80))
                & ((from_hours % 0x100 < 0x40)
                    & (from_hours / 0x100 % 0x100 < 8)
                    & (from_hours / 0x1_0000 % 0x100 < 0x40)
                    & (from_hours / 0x100_0000 < 0x20))
                & (from_year / 0x100_0000 % 0x80 < 0x40)
                & ((from_alarm_date % 0x80 < 0x40)
                    & (from_alarm_date / 0x100 % 0x80 < 0x20)
                    & (from_alarm_date / 0x100_0000 < 0x80))
                & ((from_core_minutes % 0x100 < 0x80)
                    & (from_core_minutes / 0x100 % 0x100 < 0x40)
                    & (from_core_minutes / 0x1_0000 % 0x100 < 8)
                    & (from_core_minutes / 0x100_0000 < 0x40))
                & (from_core_day / 0x1_0000 % 0x100 < 0x20)))
}

// Whether a well-formed state writes an image.
pub fn is_image(image: &[u8]) -> bool
    ensures { result ≡ is_image image.now }
{
    image.len() == LENGTH
        && has_end(image, 0x31, 0x30, 0x01)
        && places_within(image)
        && bus_within(LONE, 0, LAST, image[SUPPLIES_AT], transfer_at(image))
}

// What every call that is lent an image and the memory tests first: the memory's length, then the image.
pub fn admit(image: &[u8], memory: &[u8]) -> Result<(), Refusal>
    ensures admitted { result ≡ admitted image.now memory.now }
    ensures ok { OnOk result ((length memory.now ≡ memory_size) × (is_image image.now ≡ true)) }
    ensures wrong_memory { IsErrOf result Refusal.WrongMemory ↔ (length memory.now ≢ memory_size) }
    ensures wrong_state { IsErrOf result Refusal.WrongState ↔ ((length memory.now ≡ memory_size) × (is_image image.now ≡ false)) }
{
    if memory.len() != MEMORY {
        return Err(Refusal::WrongMemory);
    }
    if !is_image(image) {
        return Err(Refusal::WrongState);
    }
    Ok(())
}

// The well-formed state that writes an image, if there is one.
pub fn decode(image: &[u8]) -> Option<State>
    ensures { DecodeSettled image.now result }
{
    if !is_image(image) {
        return None;
    }
    Some(state_at(image))
}
