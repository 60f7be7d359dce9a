// SPDX-License-Identifier: Apache-2.0
// Which states are well-formed.
ghost use Rattle.std.specs.Prelude.{◌≡◌};
ghost use Rattle.fm3130.specs.Limits.{well_formed};

use crate::{MEMORY_SIZE, State};
use bus::select::LONE;
use bus_limits::{phase_within, power_within};
use fm3130_registers::map::LAST;

impl State {
    pub fn is_well_formed(self) -> bool
        ensures { result ≡ well_formed self }
    {
        (self.address < MEMORY_SIZE)
            & self.companion.is_within()
            & phase_within(LONE, 0, LAST, self.phase)
            & power_within(self.power, self.phase)
    }
}
