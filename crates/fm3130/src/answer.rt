// SPDX-License-Identifier: Apache-2.0
// The answer byte: the line in bit 0, the pin in bits 1 to 3.
ghost use Rattle.std.specs.Prelude.{◌≡◌, ◌≤◌};
ghost use Rattle.fm3130.specs.Answer.{pin_shown, answer_byte};

use crate::State;
use bus::Power;
use fm3130_companion::Companion;

// What the pin shows: nothing once both supplies are gone.
fn pin_shown(power: Power, companion: Companion) -> u8
    ensures { (result ≡ pin_shown power companion) × (result ≤ 7) }
{
    match power {
        Power::On | Power::Backup => companion.pin(),
        Power::Off => 0,
    }
}

impl State {
    // The answer byte to an event that left this state and this line.
    pub(crate) fn answer(self, line: bool) -> u8
        ensures { result ≡ answer_byte self line }
    {
        2 * pin_shown(self.power, self.companion) + u8::from(line)
    }
}
