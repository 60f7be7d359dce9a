// SPDX-License-Identifier: Apache-2.0
// The FM3130 on its two wires: what `pins_levels` finds due is done on image and memory, and the lines are asked. All that is
// the part's own stands here.
#![tactic(auto)]

pub mod entries;

ghost use Rattle.std.specs.Prelude.{◌≡◌, length};
ghost use Rattle.place_clock.specs.Code.Clocking.{Accepted};
ghost use Rattle.fm3130_image.specs.Image.{candidate};
ghost use Rattle.pins_levels.specs.Look.{known, events_of, hand_of};
ghost use Rattle.pins_levels.specs.Session.{asked};
ghost use Rattle.c_pins.specs.Chip.{held, fm3130_on, RanOn};
ghost use Rattle.c_pins.specs.Entry.{is_idle, eighth_in, SettledAs, begin_of};

use bus_image::places::CLOCKS_AT;
use c_line::pulls_of;
use fm3130_accept::admit;
use pins_levels::{Due, NONE, Seen, Token, asked, first, hand, leave};
use place_event::event::{happen, lined, shown};

// One event of the eight, or none.
fn once(image: &mut [u8], memory: &mut [u8], event: u8)
    requires { Accepted image.old memory.old }
    ensures { RanOn image.old memory.old (known event) image.new memory.new }
{
    if event < NONE {
        happen(image, memory, event);
    }
}

// What is due, one after the other.
fn happen_all(image: &mut [u8], memory: &mut [u8], d: Due)
    requires { Accepted image.old memory.old }
    ensures { RanOn image.old memory.old (events_of d) image.new memory.new }
{
    for event in [d.first, d.second, d.third] {
        once(image, memory, event);
    }
}

// The lines of the next Clocks, and what the ACS pin shows.
fn ask(image: &[u8], memory: &[u8], t: Token) -> Token
    requires { Accepted image.now memory.now }
    ensures { result ≡ asked fm3130_on t (held (candidate image.now) memory.now) }
{
    let told = pulls_of(image, memory);
    asked(
        t,
        told / 0x100 % 2 == 1,
        told / 0x200 % 2 == 1,
        told / 0x400 % 2 == 1,
        lined(shown(image), true),
    )
}

// Nothing is due.
fn is_idle(d: Due) -> bool
    ensures { result ≡ is_idle d }
{
    d.first >= NONE && d.second >= NONE && d.third >= NONE
}

// What is due is done, in its order, and the lines are asked. Refused by the numbers 1 and 2: the device leaves the bus, and
// nothing is written.
pub(crate) fn settle(image: &mut [u8], memory: &mut [u8], d: Due) -> Token
    ensures { SettledAs image.old memory.old d result image.new memory.new }
{
    let t = d.token;
    if t.number != 0 || is_idle(d) {
        return t;
    }
    if let Err(refusal) = admit(image, memory) {
        return leave(t, refusal.number());
    }
    happen_all(image, memory, d);
    ask(image, memory, t)
}

// The first look at a device that lies in these two buffers, in the middle of a transfer too.
pub(crate) fn begin(image: &[u8], memory: &[u8], v: Seen) -> Token
    ensures { result ≡ begin_of image.now memory.now v }
{
    let t = first(v);
    match admit(image, memory) {
        Ok(()) => ask(image, memory, t),
        Err(refusal) => leave(t, refusal.number()),
    }
}

// Whether the next Clock is a byte's eighth, by the image's clocks.
fn eighth(image: &[u8]) -> bool
    ensures { result ≡ eighth_in image.now }
{
    image.get(CLOCKS_AT).is_some_and(|clocks| *clocks == 7)
}

// A tick or a power event is handed in; what is due by that is left to `settle`.
pub(crate) fn due(image: &[u8], t: Token, event: u8) -> Due
    ensures { result ≡ hand_of t event (eighth_in image.now) }
{
    hand(t, event, eighth(image))
}
