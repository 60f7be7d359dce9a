// SPDX-License-Identifier: Apache-2.0
// The FM3130 on its two wires for C, in words of 64 bits: what `c_pins` does, by the same clauses.
#![tactic(auto)]

ghost use Rattle.c_pins.specs.Words.{BeginSettled, LookSettled, DrivenSettled, DueSettled, HandSettled};

#[unsafe(no_mangle)]
pub extern "C" fn fm3130_pins_begin(image: &[u8], memory: &[u8], seen: u64) -> u64
    ensures { BeginSettled image.now memory.now seen result }
{
    c_pins::entries::fm3130_pins_begin(image, memory, seen)
}

#[unsafe(no_mangle)]
pub extern "C" fn fm3130_pins_look(word: u64, seen: u64) -> u64
    ensures { LookSettled word seen result }
{
    c_pins::entries::fm3130_pins_look(word, seen)
}

#[unsafe(no_mangle)]
pub extern "C" fn fm3130_pins_driven(before: u64, word: u64, scl: u64) -> u64
    ensures { DrivenSettled before word scl result }
{
    c_pins::entries::fm3130_pins_driven(before, word, scl)
}

#[unsafe(no_mangle)]
pub extern "C" fn fm3130_pins_settle(image: &mut [u8], memory: &mut [u8], word: u64) -> u64
    ensures { DueSettled image.old memory.old word result image.new memory.new }
{
    c_pins::entries::fm3130_pins_settle(image, memory, word)
}

#[unsafe(no_mangle)]
pub extern "C" fn fm3130_pins_hand(image: &[u8], word: u64, event: u64) -> u64
    ensures { HandSettled image.now word event result }
{
    c_pins::entries::fm3130_pins_hand(image, word, event)
}
