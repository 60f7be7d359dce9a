// SPDX-License-Identifier: Apache-2.0
// The limits of the companion: an address that a register has, and 0 at the bits that the register map fixes.
ghost use Rattle.std.specs.Prelude.{◌≡◌};
ghost use Rattle.fm31_counters.specs.Limits.{is_register, registers_within, is_within};

use crate::map::{FIRST, LAST};
use crate::{Counters, Registers};

// Whether a register has this address.
pub(crate) fn is_register(address: u8) -> bool
    ensures { result ≡ is_register address }
{
    (FIRST..=LAST).contains(&address)
}

impl Registers {
    #[tactic(auto, unfolding(crate::specs::Limits::registers_within))]
    fn is_within(self) -> bool
        ensures { result ≡ registers_within self }
    {
        (self.flags / 16 % 2 == 0)
            & (self.watchdog % 128 < 32)
            & (self.control % 128 < 32)
            & (self.counting < 16)
    }
}

impl Counters {
    // Whether the companion is within its limits.
    #[tactic(auto, unfolding(crate::specs::Limits::is_within))]
    pub fn is_within(self) -> bool
        ensures { result ≡ is_within self }
    {
        is_register(self.address) & self.registers.is_within()
    }
}
