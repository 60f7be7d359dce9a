// SPDX-License-Identifier: Apache-2.0
// What a controller asks before a clock rises: whether the device pulls the line of the next Clock low, and whether it
// would pull the one after it. On real wires a device pulls its line before the clock, and the answer to a Clock comes
// after it. No event is run: the phase and the bytes it serves say it. An entry of its own and an object of its own.
#![tactic(auto)]

ghost use Rattle.std.specs.Prelude.{◌≡◌, Bool, true, false, not, cond, ◌+◌, ◌*◌, ◌<◌, ◌≤◌, leb, length, get_or};
ghost use Rattle.wire.specs.Bits.{pushed};
ghost use Rattle.wire.specs.Slave.{slave_names};
ghost use Rattle.wire.specs.Memory.{lent};
ghost use Rattle.fm3130_companion.specs.Part.{loads_bad_date};
ghost use Rattle.fm3130.specs.Chip.{memory_size};
ghost use Rattle.bus_image.specs.Code.Layout.{side_of};
ghost use Rattle.bus_image.specs.Places.{ADDRESS_HIGH_AT, ADDRESS_LOW_AT};
ghost use Rattle.fm3130_image.specs.Image.{image_size, companion_at, candidate};
ghost use Rattle.fm3130_image.specs.Code.Accepting.{is_image};
ghost use Rattle.c_line.specs.Line.{pulls_of, told_by, LineSettled};
ghost use Rattle.c_line.specs.Code.Line.{pulls_with};
ghost use Rattle.c_line.specs.Code.Line.{is_taken, fetched_of, low_bit, sent_pulls, opened_low};

use bits::has;
use bus_image::bytes::pair;
use bus_image::phases::{
    POINTER, READ_COMPANION, READ_MEMORY, SLAVE, WRITE_COMPANION, WRITE_MEMORY,
};
use bus_image::places::{
    ADDRESS_HIGH_AT, ADDRESS_LOW_AT, BYTE_AT, CLOCKS_AT, COMPANION_ADDRESS_AT, PHASE_AT,
};
use fm3130::MEMORY_SIZE;
use fm3130_accept::admit;
use fm3130_image::places::{CONTROL_AT, SECONDS_AT, SETUP_AT};
use fm3130_image::read::calendar_at;
use fm3130_registers::map::{CONTROL, W, WP0};
use place_clock::send::fetched;
use wire::bits::{push, sent_bit};
use wire::storing::is_protected;

// The answer's bits: the device pulls the next Clock's line; the one after it, if the next is low; if it is high. All
// ways give the number itself, so that nothing is put together at the end.
// Stays (C): fm3130_line answers in these bits, and the clause of pulls_of is told in them.
const NEXT: u64 = 0x100;

const LOW: u64 = 0x200;

const HIGH: u64 = 0x400;

const BOTH: u64 = LOW + HIGH;

// The line after the next, whatever the next is.
fn both(on: bool) -> u64
    ensures { result ≡ told_by (pulls_with false on on) }
{
    if on { BOTH } else { 0 }
}

// A weight, where the bit of a byte that a clock sends is 0.
fn if_low(byte: u8, clocks: u8, weight: u64) -> u64
    requires { clocks ≤ 7 }
    ensures { (result ≡ cond (low_bit clocks byte) weight 0) × (result ≤ weight) }
{
    if sent_bit(byte, clocks) { 0 } else { weight }
}

// A byte that goes out, by its phase's number.
fn sent_pulls(image: &[u8], memory: &[u8], number: u8, clocks: u8, byte: u8) -> u64
    requires { (is_image image.now ≡ true) × (length memory.now ≡ memory_size) }
    ensures { result ≡ told_by (sent_pulls clocks byte (fetched_of (side_of number)
        (lent memory.now (get_or image.now ADDRESS_HIGH_AT 0 * 256 + get_or image.now ADDRESS_LOW_AT 0))
        (companion_at image.now))) }
{
    if clocks > 7 {
        return if_low(fetched(image, memory, number), 0, LOW);
    }
    if clocks == 7 {
        return if_low(byte, clocks, NEXT);
    }
    if clocks == 0 {
        let first = fetched(image, memory, number);
        return if_low(first, clocks, NEXT) + if_low(first, clocks + 1, BOTH);
    }
    if_low(byte, clocks, NEXT) + if_low(byte, clocks + 1, BOTH)
}

// A slave byte that waits for its acknowledge: after it only a byte that is read can pull the line.
fn opened_pulls(image: &[u8], memory: &[u8], byte: u8) -> u64
    requires { (is_image image.now ≡ true) × (length memory.now ≡ memory_size) }
    ensures { (f : Bool) → f ≡ opened_low (slave_names byte)
        (lent memory.now (get_or image.now ADDRESS_HIGH_AT 0 * 256 + get_or image.now ADDRESS_LOW_AT 0))
        (companion_at image.now) → result ≡ told_by (pulls_with true f f) }
{
    match byte {
        0xA1 => NEXT + if_low(fetched(image, memory, READ_MEMORY), 0, BOTH),
        0xD1 => NEXT + if_low(fetched(image, memory, READ_COMPANION), 0, BOTH),
        _ => NEXT,
    }
}

// The address byte of a companion write, seven of its bits known: at most 0Eh with a last bit of 0, of 1.
fn pointer_pulls(byte: u8) -> u64
    requires { byte < 128 }
    ensures { result ≡ told_by (pulls_with false (leb (pushed byte false) 14) (leb (pushed byte true) 14)) }
{
    match byte {
        0..7 => BOTH,
        7 => LOW,
        _ => 0,
    }
}

// Whether a data byte for the companion is a write of 00h in which W falls while 02h to 08h hold no date and time that
// exist: such a byte is refused. W lies above the bit that comes last, so that bit does not matter.
fn loads_bad_date(image: &[u8], byte: u8) -> bool
    requires { length image.now ≡ image_size }
    ensures { result ≡ loads_bad_date (companion_at image.now) byte }
{
    image[COMPANION_ADDRESS_AT] == CONTROL
        && !has(byte, W)
        && has(image[CONTROL_AT], W)
        && !calendar_at(image, SECONDS_AT).is_valid()
}

// A byte that comes in, all but its last bit known, by its phase's number: whether it will be acknowledged. A slave byte
// is one of four, told apart by the last bit in pairs.
fn taken_pulls(image: &[u8], number: u8, byte: u8) -> u64
    requires { (length image.now ≡ image_size) × (byte < 128) }
    ensures { result ≡ told_by (pulls_with false
        (is_taken number byte (get_or image.now ADDRESS_HIGH_AT 0 * 256 + get_or image.now ADDRESS_LOW_AT 0)
        (companion_at image.now) false)
        (is_taken number byte (get_or image.now ADDRESS_HIGH_AT 0 * 256 + get_or image.now ADDRESS_LOW_AT 0)
        (companion_at image.now) true)) }
{
    match number {
        SLAVE => both((byte == 0x50) | (byte == 0x68)),
        POINTER => pointer_pulls(byte),
        WRITE_MEMORY => both(!is_protected(
            MEMORY_SIZE,
            image[SETUP_AT] / WP0 % 4,
            pair(image[ADDRESS_HIGH_AT], image[ADDRESS_LOW_AT]),
        )),
        WRITE_COMPANION => both(!loads_bad_date(image, push(byte, false))),
        _ => BOTH,
    }
}

// The next two lines, of an accepted image. Outside a transfer no clocks are done.
pub fn pulls_of(image: &[u8], memory: &[u8]) -> u64
    requires { (is_image image.now ≡ true) × (length memory.now ≡ memory_size) }
    ensures { result ≡ told_by (pulls_of (candidate image.now) memory.now) }
{
    let number = image[PHASE_AT];
    let clocks = image[CLOCKS_AT];
    let byte = image[BYTE_AT];
    if number > WRITE_COMPANION {
        return sent_pulls(image, memory, number, clocks, byte);
    }
    if clocks < 7 {
        return 0;
    }
    if clocks == 7 {
        return taken_pulls(image, number, byte);
    }
    if number == SLAVE {
        return opened_pulls(image, memory, byte);
    }
    NEXT
}

// What the device does to the next two lines, refused by the numbers 1 and 2; nothing is written.
#[unsafe(no_mangle)]
pub extern "C" fn fm3130_line(image: &[u8], memory: &[u8]) -> u64
    ensures { LineSettled image.now memory.now result }
{
    match admit(image, memory) {
        Ok(()) => pulls_of(image, memory),
        Err(refusal) => u64::from(refusal),
    }
}
