// SPDX-License-Identifier: Apache-2.0
// What the test of every image has in common, by its bytes: the end, and bytes 25 to 29, over the select bits and the
// companion's first and last address. Most bytes are tested four at a time, as a machine loads them.
#![tactic(auto)]

ghost use Rattle.std.specs.Prelude.{◌≡◌, [], ◌∷◌, ◌++◌, ◌≤◌, length, drop, replicate};
ghost use Rattle.bus.specs.Select.{slave_names_for};
ghost use Rattle.bus_limits.specs.Limits.{is_between};
ghost use Rattle.bus_image.specs.Bytes.{same_bytes};
ghost use Rattle.bus_accept.specs.Tests.{word_at, the_end, incoming_within, transfer_within, bus_tested};

use bus::select::names_for;
use bus_image::Transfer;
use bus_image::phases::{
    ADDRESS_LOW, IDLE, POINTER, POWER_OFF, POWER_ON, READ_COMPANION, READ_MEMORY, SLAVE,
};
use wire::slave::answers;

// Where the bytes begin that are the same in every image of a part; the words that are tested begin behind the second.
const END_AT: usize = 30;

const END_SECOND_AT: usize = 31;

// Four bytes from a place on as one number, low byte first: a machine loads it at once.
pub fn word(image: &[u8], at: usize) -> u32
    requires { (at ≤ 60) × (length image.now ≡ 64) }
    ensures { result ≡ word_at image.now at }
{
    u32::from_le_bytes([image[at], image[at + 1], image[at + 2], image[at + 3]])
}

// Whether bytes 30 to 63 are those of every image of a part: zeros, and its mark, which ends the last word. The words begin
// at 32, since a caller that copies an image stores it by sixteen bytes, and a word that lies in two stores has to wait for
// both.
pub fn has_end(image: &[u8], one: u8, two: u8, three: u8) -> bool
    requires { length image.now ≡ 64 }
    ensures { result ≡ same_bytes (drop 30 image.now) (the_end one two three) }
{
    (image[END_AT] == 0)
        & (image[END_SECOND_AT] == 0)
        & (word(image, 32) == 0)
        & (word(image, 36) == 0)
        & (word(image, 40) == 0)
        & (word(image, 44) == 0)
        & (word(image, 48) == 0)
        & (word(image, 52) == 0)
        & (word(image, 56) == 0)
        & (word(image, 60) == u32::from_le_bytes([0, one, two, three]))
}

// A byte that comes in, 0 to 8 of its clocks done: only their bits can be set; and one that waits for its acknowledge is
// one that is acknowledged.
#[tactic(auto, unfolding(crate::specs::Tests::incoming_within))]
fn incoming_within(select: u8, first: u8, last: u8, transfer: Transfer) -> bool
    requires { transfer.clocks ≤ 8 }
    ensures { result ≡ incoming_within (slave_names_for select) (is_between first last) transfer.phase transfer.clocks transfer.byte }
{
    let Transfer {
        phase,
        clocks,
        byte,
        ..
    } = transfer;
    if clocks < 8 {
        return byte >> clocks == 0;
    }
    match phase {
        SLAVE => answers(names_for(select, byte)),
        POINTER => (first..=last).contains(&byte),
        _ => true,
    }
}

// Bytes 26 to 29 while a transfer is under way.
#[tactic(auto, unfolding(crate::specs::Tests::transfer_within))]
fn transfer_within(select: u8, first: u8, last: u8, transfer: Transfer) -> bool
    ensures { result ≡ transfer_within (slave_names_for select) (is_between first last) transfer.phase transfer.clocks transfer.byte transfer.first }
{
    let Transfer {
        phase,
        clocks,
        byte,
        first: high,
    } = transfer;
    if (phase > READ_COMPANION) | (clocks > 8) {
        return false;
    }
    if (high != 0) & (phase != ADDRESS_LOW) {
        return false;
    }
    if phase >= READ_MEMORY {
        return (clocks != 0) | (byte == 0);
    }
    incoming_within(select, first, last, transfer)
}

// Bytes 25 to 29: some supplies and some phase write them, and that phase is within its limits under those supplies.
#[tactic(auto, unfolding(crate::specs::Tests::bus_tested))]
pub fn bus_within(select: u8, first: u8, last: u8, supplies: u8, transfer: Transfer) -> bool
    ensures { result ≡ bus_tested (slave_names_for select) (is_between first last) supplies transfer.phase transfer.clocks transfer.byte transfer.first }
{
    if transfer.phase == IDLE {
        return (supplies <= POWER_OFF)
            & ((transfer.clocks == 0) & (transfer.byte == 0) & (transfer.first == 0));
    }
    if supplies != POWER_ON {
        return false;
    }
    transfer_within(select, first, last, transfer)
}
