// SPDX-License-Identifier: Apache-2.0
// What firmware calls, in words of 64 bits. Bit 3 of a word is SDA (1: pull it), bits 16 to 23 are the number.
//
//   word = fm3130_pins_begin(image, memory, seen)      the first look
//   found = fm3130_pins_look(word, seen)               a look, which touches nothing; SDA by bit 3 of what it found
//   found = fm3130_pins_driven(word, found, scl)       SCL as it was read before SDA was turned, and after that
//   word = fm3130_pins_settle(image, memory, found)    what is due is done; SDA by bit 3 again, and driven as above
//   found = fm3130_pins_hand(image, word, event)       a tick or a power event; then as after a look
ghost use Rattle.std.specs.Prelude.{◌≡◌};
ghost use Rattle.c_pins.specs.Words.{BeginSettled, LookSettled, DrivenSettled, DueSettled, HandSettled, event_of_word};

use crate::{begin, due, settle};
use pins_levels::packed::{levels, pack, unpack};
use pins_levels::{Due, driven, look, stay};

#[unsafe(no_mangle)]
pub extern "C" fn fm3130_pins_begin(image: &[u8], memory: &[u8], seen: u64) -> u64
    ensures { BeginSettled image.now memory.now seen result }
{
    pack(stay(begin(image, memory, levels(seen))))
}

#[unsafe(no_mangle)]
pub extern "C" fn fm3130_pins_look(word: u64, seen: u64) -> u64
    ensures { LookSettled word seen result }
{
    pack(look(unpack(word).token, levels(seen)))
}

#[unsafe(no_mangle)]
pub extern "C" fn fm3130_pins_driven(before: u64, word: u64, scl: u64) -> u64
    ensures { DrivenSettled before word scl result }
{
    let pulled = unpack(before).token.pulling;
    let due = unpack(word);
    let token = driven(pulled, due.token, scl % 2 == 1, scl / 2 % 2 == 1);
    pack(Due { token, ..due })
}

#[unsafe(no_mangle)]
pub extern "C" fn fm3130_pins_settle(image: &mut [u8], memory: &mut [u8], word: u64) -> u64
    ensures { DueSettled image.old memory.old word result image.new memory.new }
{
    pack(stay(settle(image, memory, unpack(word))))
}

// An event of the eight, or 8.
fn event_of(event: u64) -> u8
    ensures { result ≡ event_of_word event }
{
    event.min(8) as u8
}

#[unsafe(no_mangle)]
pub extern "C" fn fm3130_pins_hand(image: &[u8], word: u64, event: u64) -> u64
    ensures { HandSettled image.now word event result }
{
    pack(due(image, unpack(word).token, event_of(event)))
}
