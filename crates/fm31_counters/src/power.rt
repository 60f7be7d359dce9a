// SPDX-License-Identifier: Apache-2.0
// What the loss of both supplies leaves, and the fresh companion.
ghost use Rattle.std.specs.Prelude.{◌≡◌};
ghost use Rattle.fm31_counters.specs.Power.{lost_registers, por_set, blank_of};

use crate::map::{FIRST, LB, POR};
use crate::{Counters, Counts, Registers};

// 09h with POR at 1.
// Stays (plain): the FM3130's POR is another bit of another register; each is one sum.
pub(crate) fn por_set(flags: u8) -> u8
    ensures { result ≡ por_set flags }
{
    flags / 128 * 128 + POR + flags % 64
}

impl Registers {
    // What the loss of both supplies leaves: the nonvolatile registers, and POR and LB in 09h.
    pub(crate) fn lost(self) -> Registers
        ensures { result ≡ lost_registers self }
    {
        Registers {
            flags: POR + LB,
            counting: 0,
            counts: Counts::default(),
            ..self
        }
    }
}

impl Counters {
    // The fresh companion: 09h with POR and LB, all else 0.
    #[tactic(auto, unfolding(crate::specs::Power::blank_of, crate::specs::Power::lost_of))]
    pub fn blank() -> Counters
        ensures { result ≡ blank_of }
    {
        Counters {
            registers: Registers::default().lost(),
            snapshot: Counts::default(),
            address: FIRST,
        }
    }
}
