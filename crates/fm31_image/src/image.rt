// SPDX-License-Identifier: Apache-2.0
// The image of a state, 64 bytes, both ways. What is read of an accepted image is the one state that could have written it.
ghost use Rattle.std.specs.Prelude.{◌≡◌, ◌+◌, ◌*◌, ◌≤◌, length};
ghost use Rattle.std.proofs.lemmas.List.Edits.{sets};
ghost use Rattle.fm31_counters.specs.Registers.{register_bytes, registers_of};
ghost use Rattle.fm31_image.specs.Image.{image_size, counts_bytes, image_of};
ghost use Rattle.fm31_image.specs.Image.{counts_at, counters_at, candidate};
ghost use Rattle.fm31_image.specs.Code.Image.{serial_at, with_counters};
ghost use Rattle.fm31_image.specs.Reading.{DecodeSettled};

use crate::accept::is_image;
use crate::places::{
    CONTROL_AT, COUNTING_AT, COUNTS_AT, FLAGS_AT, SN0_AT, SN1_AT, SN2_AT, SN3_AT, SN4_AT, SN5_AT,
    SN6_AT, SN7_AT, SNAPSHOT_AT, WATCHDOG_AT,
};
use bus_image::bytes::copy;
use bus_image::layout::{bus_at, write_bus};
use bus_image::places::{COMPANION_ADDRESS_AT, LAYOUT_AT, MARK_HIGH_AT, MARK_LOW_AT};
use fm31::State;
use fm31_counters::{Count, Counters, Counts, Registers, Serial};

// The bytes of an image.
pub const LENGTH: usize = 64;

// Writes both counters' four bytes over an image, from a place on.
fn write_counts(counts: Counts, image: &mut [u8], at: usize)
    requires { (length image.old ≡ image_size) × (at ≤ 16) }
    ensures { image.new ≡ sets image.old at (counts_bytes counts) }
{
    image[at] = counts.one.low;
    image[at + 1] = counts.one.high;
    image[at + 2] = counts.two.low;
    image[at + 3] = counts.two.high;
}

// Writes registers over an image's first 16 bytes.
fn write_registers(registers: Registers, image: &mut [u8])
    requires { length image.old ≡ image_size }
    ensures { image.new ≡ sets image.old 0 (register_bytes registers) }
{
    let serial = registers.serial;
    image[FLAGS_AT] = registers.flags;
    image[WATCHDOG_AT] = registers.watchdog;
    image[CONTROL_AT] = registers.control;
    image[COUNTING_AT] = registers.counting;
    write_counts(registers.counts, image, COUNTS_AT);
    image[SN0_AT] = serial.sn0;
    image[SN1_AT] = serial.sn1;
    image[SN2_AT] = serial.sn2;
    image[SN3_AT] = serial.sn3;
    image[SN4_AT] = serial.sn4;
    image[SN5_AT] = serial.sn5;
    image[SN6_AT] = serial.sn6;
    image[SN7_AT] = serial.sn7;
}

// Writes a companion over an image: bytes 0 to 19 and 22. The other bytes stay.
pub fn write_counters(counters: Counters, image: &mut [u8])
    requires { length image.old ≡ image_size }
    ensures { image.new ≡ with_counters image.old counters }
{
    let Counters {
        registers,
        snapshot,
        address,
    } = counters;
    write_registers(registers, image);
    write_counts(snapshot, image, SNAPSHOT_AT);
    image[COMPANION_ADDRESS_AT] = address;
}

// The image that a state writes: the registers, the snapshot, bytes 22 to 29, zeros, and the mark.
#[tactic(auto, unfolding(crate::specs::Image::image_of))]
pub fn image_of(state: State) -> [u8; LENGTH]
    ensures { result ≡ image_of state }
{
    let mut image = [0; LENGTH];
    image[MARK_HIGH_AT] = 0x31;
    image[MARK_LOW_AT] = 0xCC;
    image[LAYOUT_AT] = 0x01;
    write_counters(state.counters, &mut image);
    write_bus(&mut image, state.bus);
    image
}

// Writes a state's image over a buffer of 64 bytes.
pub fn write_image(state: State, image: &mut [u8])
    requires { length image.old ≡ image_size }
    ensures { image.new ≡ image_of state }
{
    copy(&image_of(state), image);
}

// Four bytes from a place on, as the two counters.
#[tactic(auto, unfolding(crate::specs::Image::counts_at))]
fn counts_at(image: &[u8], at: usize) -> Counts
    requires { (at ≤ 16) × (length image.now ≡ image_size) }
    ensures { result ≡ counts_at image.now at }
{
    Counts {
        one: Count {
            low: image[at],
            high: image[at + 1],
        },
        two: Count {
            low: image[at + 2],
            high: image[at + 3],
        },
    }
}

// Bytes 8 to 15, as the serial number.
fn serial_of(image: &[u8]) -> Serial
    requires { length image.now ≡ image_size }
    ensures { result ≡ serial_at image.now }
{
    Serial {
        sn0: image[SN0_AT],
        sn1: image[SN1_AT],
        sn2: image[SN2_AT],
        sn3: image[SN3_AT],
        sn4: image[SN4_AT],
        sn5: image[SN5_AT],
        sn6: image[SN6_AT],
        sn7: image[SN7_AT],
    }
}

// The first 16 bytes, as registers.
#[tactic(auto, unfolding(crate::specs::Image::counts_at))]
fn registers_of(image: &[u8]) -> Registers
    requires { length image.now ≡ image_size }
    ensures { result ≡ registers_of image.now }
{
    Registers {
        flags: image[FLAGS_AT],
        watchdog: image[WATCHDOG_AT],
        control: image[CONTROL_AT],
        counting: image[COUNTING_AT],
        counts: counts_at(image, COUNTS_AT),
        serial: serial_of(image),
    }
}

// The first 23 bytes, as a companion.
pub fn counters_at(image: &[u8]) -> Counters
    requires { length image.now ≡ image_size }
    ensures { result ≡ counters_at image.now }
{
    Counters {
        registers: registers_of(image),
        snapshot: counts_at(image, SNAPSHOT_AT),
        address: image[COMPANION_ADDRESS_AT],
    }
}

// The one state that could write an image of 64 bytes.
#[tactic(auto, unfolding(crate::specs::Image::candidate))]
fn read(image: &[u8]) -> State
    requires { length image.now ≡ image_size }
    ensures { result ≡ candidate image.now }
{
    State {
        bus: bus_at(image),
        counters: counters_at(image),
    }
}

// The state, well-formed for a size and select bits, that writes an image, if there is one.
pub fn decode(image: &[u8], size: u16, select: u8) -> Option<State>
    ensures { DecodeSettled size select image.now result }
{
    if !is_image(image, size, select) {
        return None;
    }
    Some(read(image))
}
