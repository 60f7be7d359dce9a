// SPDX-License-Identifier: Apache-2.0
// An edge on CNT1 or CNT2.
ghost use Rattle.std.specs.Prelude.{◌≡◌};
ghost use Rattle.fm31_counters.specs.Edge.{number_of, count_of, pair_of, counts_of, next_count, next_pair, edged, edge_of};

use crate::map::CC;
use crate::{Count, Counters, Counts, Input, Registers};
use bits::has;

// A counter as a number, and back.
impl From<Count> for u16 {
    ghost from_gives = { λ n r. r ≡ number_of n };

    fn from(count: Count) -> u16 {
        u16::from_le_bytes([count.low, count.high])
    }
}

impl From<u16> for Count {
    ghost from_gives = { λ n r. r ≡ count_of n };

    fn from(number: u16) -> Count {
        let [low, high] = number.to_le_bytes();
        Count { low, high }
    }
}

// The pair as one number, counter 1 the low half, and back.
impl From<Counts> for u32 {
    ghost from_gives = { λ n r. r ≡ pair_of n };

    fn from(counts: Counts) -> u32 {
        u32::from(u16::from(counts.two)) * 65536 + u32::from(u16::from(counts.one))
    }
}

impl From<u32> for Counts {
    ghost from_gives = { λ n r. r ≡ counts_of n };

    fn from(number: u32) -> Counts {
        Counts {
            one: Count::from((number % 65536) as u16),
            two: Count::from((number / 65536) as u16),
        }
    }
}

impl Count {
    // One more, rolling from FFFFh to 0000h.
    #[tactic(auto, unfolding(crate::specs::Edge::next_count))]
    fn next(self) -> Count
        ensures { result ≡ next_count self }
    {
        Count::from(u16::from(self).wrapping_add(1))
    }
}

impl Counts {
    // One more on the pair, rolling to zero from its top.
    #[tactic(auto, unfolding(crate::specs::Edge::next_pair))]
    fn next(self) -> Counts
        ensures { result ≡ next_pair self }
    {
        Counts::from(u32::from(self).wrapping_add(1))
    }

    // The counters after an edge, cascaded or apart.
    fn edged(self, cascaded: bool, input: Input) -> Counts
        ensures { result ≡ edged cascaded input self }
    {
        match (cascaded, input) {
            (true, Input::Cnt1) => self.next(),
            (true, Input::Cnt2) => self,
            (false, Input::Cnt1) => Counts {
                one: self.one.next(),
                ..self
            },
            (false, Input::Cnt2) => Counts {
                two: self.two.next(),
                ..self
            },
        }
    }
}

impl Counters {
    // An edge while power or backup is present.
    #[tactic(auto, unfolding(crate::specs::Edge::edge_of))]
    pub fn edge(self, input: Input) -> Counters
        ensures { result ≡ edge_of self input }
    {
        let registers = self.registers;
        Counters {
            registers: Registers {
                counts: registers.counts.edged(has(registers.counting, CC), input),
                ..registers
            },
            ..self
        }
    }
}
