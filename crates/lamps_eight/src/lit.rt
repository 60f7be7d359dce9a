// SPDX-License-Identifier: Apache-2.0
// The eight lamps, by what an event is to them.
ghost use Rattle.std.specs.Prelude.{◌≡◌, ◌≤◌, ◌-◌};
ghost use Rattle.lamps_eight.specs.Eight.{lamp, lamp_ended, lamp_gave, lamp_next, lamps_next, dark, bit, shines, byte_of};

use crate::{Lamp, Lamps, Mark};

// The first lamp's address.
const FIRST: u16 = 0x1000;

impl Lamp {
    // A lamp that is dark, with nothing read of it.
    fn dark() -> Lamp
        ensures { result ≡ lamp 0 0 }
    {
        Lamp { held: 0, left: 0 }
    }

    // A Stop: what the transaction gave becomes the lamp.
    fn ended(self) -> Lamp
        ensures { result ≡ lamp_ended self }
    {
        match self.held {
            0 => self,
            1 => Lamp { held: 0, left: 3 },
            _ => Lamp::dark(),
        }
    }

    // A tick: one less.
    fn ticked(self) -> Lamp
        ensures { result ≡ lamp self.held (self.left - 1) }
    {
        Lamp {
            left: self.left.saturating_sub(1),
            ..self
        }
    }

    // Nine clocks of a read of the lamp's byte.
    fn gave(self, value: u8) -> Lamp
        ensures { result ≡ lamp_gave value self }
    {
        let held = if value == 1 { 1 } else { 2 };
        Lamp { held, ..self }
    }

    // The lamp at an address, after an event.
    fn next(self, at: u16, mark: Mark) -> Lamp
        ensures { result ≡ lamp_next at mark self }
    {
        match mark {
            Mark::Failed => Lamp::dark(),
            Mark::Ended => self.ended(),
            Mark::Ticked => self.ticked(),
            Mark::Gave { address, value } if address == at => self.gave(value),
            Mark::Gave { .. } | Mark::Other => self,
        }
    }

    // Its bit in the report.
    fn bit(self, weight: u8) -> u8
        ensures { (result ≡ bit (shines self) weight) × (result ≤ weight) }
    {
        if self.left > 0 { weight } else { 0 }
    }
}

impl Lamps {
    // All dark.
    pub fn dark() -> Lamps
        ensures { result ≡ dark }
    {
        Lamps {
            zero: Lamp::dark(),
            one: Lamp::dark(),
            two: Lamp::dark(),
            three: Lamp::dark(),
            four: Lamp::dark(),
            five: Lamp::dark(),
            six: Lamp::dark(),
            seven: Lamp::dark(),
        }
    }

    // All eight after an event.
    pub fn next(self, mark: Mark) -> Lamps
        ensures { result ≡ lamps_next mark self }
    {
        Lamps {
            zero: self.zero.next(FIRST, mark),
            one: self.one.next(FIRST + 1, mark),
            two: self.two.next(FIRST + 2, mark),
            three: self.three.next(FIRST + 3, mark),
            four: self.four.next(FIRST + 4, mark),
            five: self.five.next(FIRST + 5, mark),
            six: self.six.next(FIRST + 6, mark),
            seven: self.seven.next(FIRST + 7, mark),
        }
    }

    // One byte, bit k for lamp k.
    pub fn byte(self) -> u8
        ensures { result ≡ byte_of self }
    {
        self.zero.bit(1)
            + self.one.bit(2)
            + self.two.bit(4)
            + self.three.bit(8)
            + self.four.bit(16)
            + self.five.bit(32)
            + self.six.bit(64)
            + self.seven.bit(128)
    }
}
