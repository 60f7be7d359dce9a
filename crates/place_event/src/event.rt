// SPDX-License-Identifier: Apache-2.0
// One event where the device lies: Start and Stop, the supplies, a tick, a Clock; and the answer byte.
ghost use Rattle.std.specs.Prelude.{◌≡◌, true, cond, List, ℕ, ◌+◌, ◌*◌, ◌/◌, ◌≤◌, length};
ghost use Rattle.wire.specs.Machine.{start, stop};
ghost use Rattle.fm3130.specs.Answer.{pin_shown};
ghost use Rattle.fm3130.specs.Event.{on_wire, second, lost, gone, returned, event_of, rolled_by, rolled_in};
ghost use Rattle.fm3130.specs.declared.State.{State};
ghost use Rattle.fm3130_image.specs.Image.{image_size, image_of, candidate};
ghost use Rattle.fm3130_image.specs.Code.Accepting.{is_image};
ghost use Rattle.place_clock.specs.Code.Clocking.{Accepted, Left};
ghost use Rattle.place_companion.specs.Code.Lying.{Becomes};
ghost use Rattle.place_event.specs.Code.Answering.{Answered};
ghost use Rattle.place_event.specs.Code.Quiet.{quiet_of};

use crate::Told;
use bus_image::phases::{IDLE, POWER_BACKUP, POWER_OFF, POWER_ON, SLAVE};
use bus_image::places::{ADDRESS_HIGH_AT, ADDRESS_LOW_AT, COMPANION_ADDRESS_AT, SUPPLIES_AT};
use calendar::Rolled;
use fm3130::State;
use fm3130_image::places::{CONTROL_AT, SETUP_AT};
use fm3130_image::write::write_over;
use fm3130_registers::control::por_set;
use fm3130_registers::pin::pin_by;
use place_clock::receive::begin;
use place_clock::send::clock;
use place_tick::{tick, unsaid};

// What the pin shows, as bits 1 to 3 of an answer: nothing once both supplies are gone.
pub fn shown(image: &[u8]) -> u8
    requires { length image.now ≡ image_size }
    ensures { ((s : State) → image.now ≡ image_of s → result ≡ 2 * pin_shown s.power s.companion) × (result ≤ 14) }
{
    if image[SUPPLIES_AT] == POWER_OFF {
        return 0;
    }
    2 * pin_by(image[CONTROL_AT], image[SETUP_AT])
}

// An answer byte: the line in bit 0.
pub fn lined(shown: u8, line: bool) -> u8
    requires { shown ≤ 14 }
    ensures { result ≡ shown + cond line 1 0 }
{
    shown + u8::from(line)
}

// Start: begins a slave byte, whatever was under way. Heard only while main power is present.
fn start(image: &mut [u8])
    requires { length image.old ≡ image_size }
    ensures { Becomes image.old (quiet_of (on_wire start)) image.new }
{
    if image[SUPPLIES_AT] != POWER_ON {
        return;
    }
    begin(image, SLAVE, 0);
}

// Stop: ends the transfer.
fn stop(image: &mut [u8])
    requires { length image.old ≡ image_size }
    ensures { Becomes image.old (quiet_of (on_wire stop)) image.new }
{
    if image[SUPPLIES_AT] != POWER_ON {
        return;
    }
    begin(image, IDLE, 0);
}

// Main power lost, backup present: the transfer ends, both addresses become 0.
fn lose(image: &mut [u8])
    requires { length image.old ≡ image_size }
    ensures { Becomes image.old (quiet_of lost) image.new }
{
    if image[SUPPLIES_AT] != POWER_ON {
        return;
    }
    image[COMPANION_ADDRESS_AT] = 0;
    image[ADDRESS_HIGH_AT] = 0;
    image[ADDRESS_LOW_AT] = 0;
    image[SUPPLIES_AT] = POWER_BACKUP;
    begin(image, IDLE, 0);
}

// Main power lost, no backup: all starts anew, as in the fresh device, but without a supply.
fn lose_all(image: &mut [u8])
    requires { is_image image.old ≡ true }
    ensures { Becomes image.old (quiet_of gone) image.new }
{
    if image[SUPPLIES_AT] == POWER_OFF {
        return;
    }
    write_over(State::fresh(), image);
    image[SUPPLIES_AT] = POWER_OFF;
}

// Main power returned: after backup POR is set; after no supply only the power changes.
fn restore(image: &mut [u8])
    requires { length image.old ≡ image_size }
    ensures { Becomes image.old (quiet_of returned) image.new }
{
    if image[SUPPLIES_AT] == POWER_BACKUP {
        image[CONTROL_AT] = por_set(image[CONTROL_AT]);
        image[SUPPLIES_AT] = POWER_ON;
        return;
    }
    image[SUPPLIES_AT] = POWER_ON;
}

// A one-second tick: goes to the companion while a supply is present. What it returns is the field that changed.
pub fn second(image: &mut [u8]) -> Rolled
    requires { length image.old ≡ image_size }
    ensures { ((s : State) → image.old ≡ image_of s → result ≡ rolled_by second s)
        × Becomes image.old (quiet_of second) image.new }
{
    if image[SUPPLIES_AT] == POWER_OFF {
        return Rolled::Nothing;
    }
    tick(image)
}

// An event that is no Clock: it touches no memory and leaves the line high.
fn quiet(image: &mut [u8], event: u8)
    requires image_value { is_image image.old ≡ true }
    requires event_bound { (event ≤ 7) × (event / 2 ≡ 1 → ⊥) }
    ensures { (m : List ℕ) → Left (event_of (candidate image.old) m event) true image.new m }
{
    match event {
        0 => start(image),
        1 => stop(image),
        4 => unsaid(second(image)),
        5 => lose(image),
        6 => lose_all(image),
        _ => restore(image),
    }
}

// One event of the eight, with its answer byte.
pub fn happen(image: &mut [u8], memory: &mut [u8], event: u8) -> u8
    requires accepted { Accepted image.old memory.old }
    requires event_bound { event ≤ 7 }
    ensures { Answered (event_of (candidate image.old) memory.old event) result image.new memory.new }
{
    if event / 2 == 1 {
        let line = clock(image, memory, event == 3);
        return lined(shown(image), line);
    }
    quiet(image, event);
    lined(shown(image), true)
}

// The same, with the field of the calendar that the event changed: a tick says it, and no other event changes one by
// counting.
pub fn tell(image: &mut [u8], memory: &mut [u8], event: u8) -> Told
    requires accepted { Accepted image.old memory.old }
    requires event_bound { event ≤ 7 }
    ensures { Answered (event_of (candidate image.old) memory.old event) result.answer image.new memory.new
        × (result.rolled ≡ rolled_in (candidate image.old) event) }
{
    if event == 4 {
        let rolled = second(image);
        return Told {
            answer: lined(shown(image), true),
            rolled,
        };
    }
    Told {
        answer: happen(image, memory, event),
        rolled: Rolled::Nothing,
    }
}
