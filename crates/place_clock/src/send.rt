// SPDX-License-Identifier: Apache-2.0
// A Clock in a byte that goes out, and any Clock, where the transfer lies.
ghost use Rattle.std.specs.Prelude.{◌+◌, ◌*◌, ◌<◌, ◌≤◌, ◌≡◌, length, get_or};
ghost use Rattle.fm3130_registers.specs.Map.{LAST};
ghost use Rattle.fm3130.specs.Chip.{memory_size};
ghost use Rattle.fm3130.specs.declared.State.{State};
ghost use Rattle.bus_image.specs.Code.Layout.{side_of};
ghost use Rattle.bus_image.specs.Places.{WRITE_COMPANION, COMPANION_ADDRESS_AT, ADDRESS_HIGH_AT, ADDRESS_LOW_AT, PHASE_AT};
ghost use Rattle.fm3130_image.specs.Image.{image_size, image_of};
ghost use Rattle.place_clock.specs.Code.Outgoing.{fetched_from, onward, finished_by, closed_by};
ghost use Rattle.place_clock.specs.Code.Clocking.{Accepted, Left, clock_on};
ghost use Rattle.place_companion.specs.Code.Lying.{Becomes};

use crate::receive::{move_to, receive};
use bus_image::bytes::pair;
use bus_image::phases::{IDLE, READ_MEMORY, WRITE_COMPANION};
use bus_image::places::{ADDRESS_HIGH_AT, ADDRESS_LOW_AT, BYTE_AT, CLOCKS_AT, PHASE_AT};
use fm3130::MEMORY_SIZE;
use place_companion::{load, loaded};
use wire::bits::sending_line;

// The byte that a read sends: from the memory at its address, or a register.
pub fn fetched(image: &[u8], memory: &[u8], number: u8) -> u8
    requires image_len { (length image.now ≡ image_size) × (length memory.now ≡ memory_size) }
    requires image_bound { (get_or image.now COMPANION_ADDRESS_AT 0 ≤ LAST) × (get_or image.now ADDRESS_HIGH_AT 0 * 256 + get_or image.now ADDRESS_LOW_AT 0 < memory_size) }
    ensures { (s : State) → image.now ≡ image_of s → result ≡ fetched_from (side_of number) s memory.now }
{
    if number == READ_MEMORY {
        let at = pair(image[ADDRESS_HIGH_AT], image[ADDRESS_LOW_AT]) as usize;
        return memory[at];
    }
    load(image)
}

// The memory's address steps on.
fn step_on(image: &mut [u8])
    requires { (length image.old ≡ image_size) × (get_or image.old ADDRESS_HIGH_AT 0 * 256 + get_or image.old ADDRESS_LOW_AT 0 < memory_size) }
    ensures { Becomes image.old onward image.new }
{
    let next = (pair(image[ADDRESS_HIGH_AT], image[ADDRESS_LOW_AT]) + 1) % MEMORY_SIZE;
    move_to(image, next);
}

// What sending a whole byte does: the address of its device steps on.
fn finish(image: &mut [u8], number: u8, byte: u8)
    requires image_len { length image.old ≡ image_size }
    requires image_bound { (get_or image.old COMPANION_ADDRESS_AT 0 ≤ LAST) × (get_or image.old ADDRESS_HIGH_AT 0 * 256 + get_or image.old ADDRESS_LOW_AT 0 < memory_size) }
    ensures { Becomes image.old (finished_by (side_of number) byte) image.new }
{
    if number == READ_MEMORY {
        step_on(image);
        return;
    }
    loaded(image, byte);
}

// The ninth clock: the master's low bit asks for another byte, its high bit ends the transfer.
fn close(image: &mut [u8], high: bool)
    requires { length image.old ≡ image_size }
    ensures { image.new ≡ closed_by high image.old }
{
    if high {
        image[PHASE_AT] = IDLE;
        image[CLOCKS_AT] = 0;
        image[BYTE_AT] = 0;
        return;
    }
    image[CLOCKS_AT] = 0;
    image[BYTE_AT] = 0;
}

// A Clock in a byte that goes out, by the phase's number. The byte is fixed at its first clock; the address steps on at
// the eighth.
fn send(image: &mut [u8], memory: &[u8], number: u8, high: bool) -> bool
    requires accepted { Accepted image.old memory.now }
    requires number_value { (number ≡ get_or image.old PHASE_AT 0) × (WRITE_COMPANION < number) }
    ensures { Left (clock_on image.old memory.now high) result image.new memory.now }
{
    let clocks = image[CLOCKS_AT];
    if clocks == 0 {
        let first = fetched(image, memory, number);
        image[CLOCKS_AT] = 1;
        image[BYTE_AT] = first;
        return sending_line(first, 0, high);
    }
    if clocks == 8 {
        close(image, high);
        return high;
    }
    let byte = image[BYTE_AT];
    if clocks == 7 {
        finish(image, number, byte);
        image[CLOCKS_AT] = 8;
        return sending_line(byte, 7, high);
    }
    image[CLOCKS_AT] = clocks + 1;
    sending_line(byte, clocks, high)
}

// A Clock. Outside a transfer it changes nothing; without main power there is no transfer.
pub fn clock(image: &mut [u8], memory: &mut [u8], high: bool) -> bool
    requires { Accepted image.old memory.old }
    ensures { Left (clock_on image.old memory.old high) result image.new memory.new }
{
    let number = image[PHASE_AT];
    if number == IDLE {
        return high;
    }
    if number > WRITE_COMPANION {
        return send(image, memory, number, high);
    }
    receive(image, memory, number, high)
}
