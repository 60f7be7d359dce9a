// SPDX-License-Identifier: Apache-2.0
// Whether an image is accepted, by tests of its bytes: no state is made of it, and nothing is written again to be compared.
ghost use Rattle.std.specs.Prelude.{◌≡◌, length};
ghost use Rattle.fm31_image.specs.Image.{image_size};
ghost use Rattle.fm31_image.specs.Accepting.{is_image, same_in_all, places_within};

use crate::image::LENGTH;
use crate::places::{SPARE_AT, SPARE_SECOND_AT};
use bus_accept::{bus_within, has_end, word};
use bus_image::bytes::pair;
use bus_image::layout::transfer_at;
use bus_image::places::{ADDRESS_HIGH_AT, ADDRESS_LOW_AT, COMPANION_ADDRESS_AT, SUPPLIES_AT};
use fm31_counters::map::{FIRST, LAST};

// Whether the bytes that all images have alike are so: two zeros behind the snapshot, and the end with the mark.
#[tactic(auto, unfolding(crate::specs::Accepting::same_in_all))]
fn same_in_all(image: &[u8]) -> bool
    requires { length image.now ≡ image_size }
    ensures { result ≡ same_in_all image.now }
{
    (image[SPARE_AT] == 0) & (image[SPARE_SECOND_AT] == 0) & has_end(image, 0x31, 0xCC, 0x01)
}

// The limits of bytes 0 to 24, the registers and the two addresses. The tests of one word stand together, so that they become
// one.
fn places_within(image: &[u8], size: u16) -> bool
    requires { length image.now ≡ image_size }
    ensures { result ≡ places_within size image.now }
{
    let registers = word(image, 0);
    let address = image[COMPANION_ADDRESS_AT];
    (pair(image[ADDRESS_HIGH_AT], image[ADDRESS_LOW_AT]) < size)
        & (((FIRST <= address) & (address <= LAST))
            & ((registers / 16 % 2 == 0)
                & (registers / 0x100 % 0x80 < 0x20)
                & (registers / 0x1_0000 % 0x80 < 0x20)
                & (registers / 0x100_0000 < 0x10)))
}

// Whether a state, well-formed for a size and select bits, writes an image.
pub fn is_image(image: &[u8], size: u16, select: u8) -> bool
    ensures { result ≡ is_image size select image.now }
{
    if image.len() != LENGTH {
        return false;
    }
    if !same_in_all(image) {
        return false;
    }
    if !places_within(image, size) {
        return false;
    }
    bus_within(select, FIRST, LAST, image[SUPPLIES_AT], transfer_at(image))
}
