// SPDX-License-Identifier: Apache-2.0
// A Clock in a byte that comes in, where the transfer lies: bytes 26 to 29 of the image hold the phase's number, the
// clocks done, the bits so far, and the first address byte.
ghost use Rattle.std.specs.Prelude.{◌/◌, ◌%◌, ◌<◌, ◌≡◌, [], ◌∷◌, length, get_or};
ghost use Rattle.std.proofs.lemmas.List.Edits.{sets};
ghost use Rattle.fm3130.specs.declared.State.{State};
ghost use Rattle.bus_image.specs.Places.{IDLE, WRITE_MEMORY, READ_MEMORY, ADDRESS_HIGH_AT, PHASE_AT, CLOCKS_AT};
ghost use Rattle.fm3130_image.specs.Image.{image_size, image_of};
ghost use Rattle.place_clock.specs.Code.Incoming.{whole_by, Wholly, opened_by, followed_by, first_by};
ghost use Rattle.place_clock.specs.Code.Clocking.{Accepted, Left, clock_on};

use bus_image::bytes::pair;
use bus_image::phases::{
    ADDRESS_HIGH, ADDRESS_LOW, IDLE, POINTER, READ_COMPANION, READ_MEMORY, SLAVE, WRITE_COMPANION,
    WRITE_MEMORY,
};
use bus_image::places::{ADDRESS_HIGH_AT, ADDRESS_LOW_AT, BYTE_AT, CLOCKS_AT, FIRST_AT, PHASE_AT};
use fm3130::MEMORY_SIZE;
use fm3130_image::places::SETUP_AT;
use fm3130_registers::map::WP0;
use place_companion::{aim, store};
use wire::bits::push;
use wire::storing::is_protected;

// A byte of a phase begins, with the first address byte that is kept for it.
pub fn begin(image: &mut [u8], number: u8, first: u8)
    requires { length image.old ≡ image_size }
    ensures { image.new ≡ sets image.old PHASE_AT (number ∷ 0 ∷ 0 ∷ first ∷ []) }
{
    image[PHASE_AT] = number;
    image[CLOCKS_AT] = 0;
    image[BYTE_AT] = 0;
    image[FIRST_AT] = first;
}

// Another memory address.
pub(crate) fn move_to(image: &mut [u8], address: u16)
    requires { length image.old ≡ image_size }
    ensures { image.new ≡ sets image.old ADDRESS_HIGH_AT (address / 256 ∷ address % 256 ∷ []) }
{
    let [high, low] = address.to_be_bytes();
    image[ADDRESS_HIGH_AT] = high;
    image[ADDRESS_LOW_AT] = low;
}

// A whole data byte for the memory: stored, or refused where the address is protected; either way the address steps on.
fn put(image: &mut [u8], memory: &mut [u8], byte: u8) -> bool
    requires { Accepted image.old memory.old }
    ensures { (s : State) → image.old ≡ image_of s
        → Wholly (whole_by WRITE_MEMORY s memory.old byte) result image.new memory.new }
{
    let guard = image[SETUP_AT] / WP0 % 4;
    let address = pair(image[ADDRESS_HIGH_AT], image[ADDRESS_LOW_AT]);
    let next = (address + 1) % MEMORY_SIZE;
    move_to(image, next);
    if is_protected(MEMORY_SIZE, guard, address) {
        return false;
    }
    let at = address as usize;
    memory[at] = byte;
    true
}

// The number of the phase that a slave byte opens, 0 where it names nobody.
fn opens(byte: u8) -> u8
    ensures { result ≡ opened_by byte }
{
    match byte {
        0xA0 => ADDRESS_HIGH,
        0xA1 => READ_MEMORY,
        0xD0 => POINTER,
        0xD1 => READ_COMPANION,
        _ => IDLE,
    }
}

// What a whole byte does, and whether it is acknowledged, by the phase's number.
fn takes(image: &mut [u8], memory: &mut [u8], number: u8, byte: u8) -> bool
    requires { Accepted image.old memory.old }
    ensures { (s : State) → image.old ≡ image_of s
        → Wholly (whole_by number s memory.old byte) result image.new memory.new }
{
    match number {
        SLAVE => opens(byte) != IDLE,
        ADDRESS_HIGH => true,
        ADDRESS_LOW => {
            let address = pair(image[FIRST_AT], byte) % MEMORY_SIZE;
            move_to(image, address);
            true
        }
        POINTER => aim(image, byte),
        WRITE_MEMORY => put(image, memory, byte),
        _ => store(image, byte),
    }
}

// The number of the phase that an acknowledge leads to.
fn follows(number: u8, byte: u8) -> u8
    ensures { result ≡ followed_by number byte }
{
    match number {
        SLAVE => opens(byte),
        ADDRESS_HIGH => ADDRESS_LOW,
        ADDRESS_LOW => WRITE_MEMORY,
        POINTER => WRITE_COMPANION,
        _ => number,
    }
}

// The first address byte that is kept after an acknowledge.
fn keeps(number: u8, byte: u8) -> u8
    ensures { result ≡ first_by number byte }
{
    if number == ADDRESS_HIGH {
        return byte;
    }
    0
}

// The eighth clock: the byte acts, and waits for its acknowledge; one that is refused ends the transfer.
fn eighth(image: &mut [u8], memory: &mut [u8], number: u8, high: bool)
    requires accepted { Accepted image.old memory.old }
    requires number_value { (number ≡ get_or image.old PHASE_AT 0) × (IDLE < number) × (number < READ_MEMORY) × (get_or image.old CLOCKS_AT 0 ≡ 7) }
    ensures { Left (clock_on image.old memory.old high) high
        image.new memory.new }
{
    let byte = push(image[BYTE_AT], high);
    if takes(image, memory, number, byte) {
        image[CLOCKS_AT] = 8;
        image[BYTE_AT] = byte;
        return;
    }
    begin(image, IDLE, 0);
}

// A Clock in a byte that comes in, by the phase's number.
pub(crate) fn receive(image: &mut [u8], memory: &mut [u8], number: u8, high: bool) -> bool
    requires accepted { Accepted image.old memory.old }
    requires number_value { (number ≡ get_or image.old PHASE_AT 0) × (IDLE < number) × (number < READ_MEMORY) }
    ensures { Left (clock_on image.old memory.old high) result image.new memory.new }
{
    let clocks = image[CLOCKS_AT];
    let byte = image[BYTE_AT];
    if clocks < 7 {
        image[CLOCKS_AT] = clocks + 1;
        image[BYTE_AT] = push(byte, high);
        return high;
    }
    if clocks == 7 {
        eighth(image, memory, number, high);
        return high;
    }
    begin(image, follows(number, byte), keeps(number, byte));
    false
}
