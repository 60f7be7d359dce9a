// SPDX-License-Identifier: Apache-2.0
// The limits of a companion: an address that a register has, and 0 at the bits that the register map fixes.
ghost use Rattle.std.specs.Prelude.{◌≡◌};
ghost use Rattle.fm3130_companion.specs.Limits.{fixed_clear, alarm_within, registers_within, is_within};

use crate::{Alarm, Companion, Registers};
use fm3130_registers::map::LAST;

// Whether a byte has, below its bit 7, bits under the span alone.
fn fixed_clear(span: u8, byte: u8) -> bool
    ensures { result ≡ fixed_clear span byte }
{
    byte % 128 < span
}

impl Alarm {
    #[tactic(auto, unfolding(crate::specs::Limits::alarm_within))]
    fn is_within(self) -> bool
        ensures { result ≡ alarm_within self }
    {
        fixed_clear(64, self.hours) & fixed_clear(64, self.date) & fixed_clear(32, self.month)
    }
}

impl Registers {
    #[tactic(auto, unfolding(crate::specs::Limits::registers_within))]
    fn is_within(self) -> bool
        ensures { result ≡ registers_within self }
    {
        fixed_clear(64, self.trim) & self.time.is_within() & self.alarm.is_within()
    }
}

impl Companion {
    // Whether the companion is within 01's limits.
    #[tactic(auto, unfolding(crate::specs::Limits::is_within))]
    pub fn is_within(self) -> bool
        ensures { result ≡ is_within self }
    {
        (self.address <= LAST) & self.registers.is_within() & self.core.is_within()
    }
}
