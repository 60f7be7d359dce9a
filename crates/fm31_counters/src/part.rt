// SPDX-License-Identifier: Apache-2.0
// The companion as an event asks it: an address byte, a data byte, a byte that is read and the end of that read, an edge,
// power lost and returned; and the protection of memory.
ghost use Rattle.std.specs.Prelude.{◌≡◌, ◌≤◌};
ghost use Rattle.fm31_counters.specs.Map.{FIRST, LAST};
ghost use Rattle.fm31_counters.specs.Part.{next_address, stepped_of, aim_of, store_of, shown, load_of, released, loaded_of, guard_of};
ghost use Rattle.fm31_counters.specs.Part.{backed_of, lost_of, returned_of};
ghost use Rattle.fm31_counters.specs.Ways.{ways31, beaten};

use crate::limits::is_register;
use crate::map::{FIRST, LAST, RC, TOP, WP0};
use crate::power::por_set;
use crate::{Counters, Counts, Input, Registers};
use bits::has;
use bus::Beat;
use bus_deeds::serve::{Desk, Taken};

// The address after one: from 18h back to 09h.
fn next_address(address: u8) -> u8
    requires { address ≤ LAST }
    ensures { result ≡ next_address address }
{
    if address == LAST {
        return FIRST;
    }
    address + 1
}

impl Counters {
    // The companion once its address stepped on.
    fn stepped(self) -> Counters
        requires { self.address ≤ LAST }
        ensures { result ≡ stepped_of self }
    {
        Counters {
            address: next_address(self.address),
            ..self
        }
    }

    // The registers as a read shows them: while RC is 1, the snapshot in place of the counters.
    fn shown(self) -> Registers
        ensures { result ≡ shown self }
    {
        if has(self.registers.counting, RC) {
            return Registers {
                counts: self.snapshot,
                ..self.registers
            };
        }
        self.registers
    }

    // The companion with RC cleared.
    fn released(self) -> Counters
        ensures { result ≡ released self }
    {
        Counters {
            registers: Registers {
                counting: self.registers.counting % 8,
                ..self.registers
            },
            ..self
        }
    }

    // WP1 WP0, as a number.
    pub fn guard(self) -> u8
        ensures { result ≡ guard_of self }
    {
        self.registers.control / WP0 % 4
    }
}

impl Desk for Counters {
    type Told = ();

    ghost ready = { λ c. (FIRST ≤ c.address) × (c.address ≤ LAST) };

    ghost ways = { ways31 };

    ghost told = { λ t c. tt };

    // An address byte: taken where a register has that address; else the old address stands.
    #[tactic(auto, unfolding(crate::specs::Part::aim_of))]
    fn aim(self, byte: u8) -> Taken<Counters>
        ensures { result ≡ aim_of self byte }
    {
        if is_register(byte) {
            return Taken {
                companion: Counters {
                    address: byte,
                    ..self
                },
                acknowledged: true,
            };
        }
        Taken {
            companion: self,
            acknowledged: false,
        }
    }

    // A data byte at its eighth clock: written to the register at the address, and the address steps on.
    #[tactic(auto, unfolding(crate::specs::Part::store_of, crate::specs::Write::written_of))]
    fn store(self, byte: u8) -> Taken<Counters>
        requires { (FIRST ≤ self.address) × (self.address ≤ LAST) }
        ensures { result ≡ store_of self byte }
    {
        Taken {
            companion: self.written(byte).stepped(),
            acknowledged: true,
        }
    }

    // The byte at the address.
    fn load(self) -> u8
        requires { (FIRST ≤ self.address) × (self.address ≤ LAST) }
        ensures { result ≡ load_of self }
    {
        self.shown().read(self.address)
    }

    // The end of a read: RC is cleared once the last of the four counter bytes was read; the address steps on.
    #[tactic(auto, unfolding(crate::specs::Part::loaded_of))]
    fn loaded(self, byte: u8) -> Counters
        requires { self.address ≤ LAST }
        ensures { result ≡ loaded_of self byte }
    {
        if self.address == TOP {
            return self.released().stepped();
        }
        self.stepped()
    }

    // A tick, which changes nothing, or an edge. Neither tells anything.
    fn beat(self, beat: Beat) -> (Counters, ())
        ensures { result ≡ record { 0 = beaten beat self; 1 = tt } }
    {
        let next = match beat {
            Beat::Second => self,
            Beat::Cnt1 => self.edge(Input::Cnt1),
            Beat::Cnt2 => self.edge(Input::Cnt2),
        };
        (next, ())
    }

    // Main power lost with backup: the address is 09h again, the rest is kept.
    fn backed(self) -> Counters
        ensures { result ≡ backed_of self }
    {
        Counters {
            address: FIRST,
            ..self
        }
    }

    // Both supplies gone.
    #[tactic(auto, unfolding(crate::specs::Power::lost_of))]
    fn lost(self) -> Counters
        ensures { result ≡ lost_of self }
    {
        Counters {
            registers: self.registers.lost(),
            snapshot: Counts::default(),
            address: FIRST,
        }
    }

    // Main power back after backup: POR is set.
    #[tactic(auto, unfolding(crate::specs::Power::returned_of))]
    fn returned(self) -> Counters
        ensures { result ≡ returned_of self }
    {
        Counters {
            registers: Registers {
                flags: por_set(self.registers.flags),
                ..self.registers
            },
            ..self
        }
    }
}
