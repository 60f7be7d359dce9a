// SPDX-License-Identifier: Apache-2.0
// What the registers show outside: the ACS pin, and which memory is protected.
ghost use Rattle.std.specs.Prelude.{◌≡◌, ◌≤◌};
ghost use Rattle.fm3130_companion.specs.Pin.{pin_of, guard_of};

use crate::Companion;
use fm3130_registers::map::WP0;
use fm3130_registers::pin::pin_by;

impl Companion {
    // Bits 3 to 1 of an answer as a number.
    #[tactic(auto, unfolding(crate::specs::Pin::pin_of))]
    pub fn pin(self) -> u8
        ensures { (result ≡ pin_of self) × (result ≤ 7) }
    {
        pin_by(self.registers.control, self.registers.setup)
    }

    // WP1 WP0 as a number.
    pub fn guard(self) -> u8
        ensures { (result ≡ guard_of self) × (result ≤ 3) }
    {
        self.registers.setup / WP0 % 4
    }
}
