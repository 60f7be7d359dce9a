// SPDX-License-Identifier: Apache-2.0
// The companion as an event asks it: an address byte, a data byte, a byte that is read and the end of that read, a tick,
// power lost and returned.
ghost use Rattle.std.specs.Prelude.{◌≡◌, ◌≤◌};
ghost use Rattle.fm3130_registers.specs.Map.{LAST};
ghost use Rattle.fm3130_companion.specs.Part.{stepped_of, refused_address, control_read};
ghost use Rattle.fm3130_companion.specs.Part.{aim_of, loads_bad_date, refused_date, store_of, load_of, loaded_of};
ghost use Rattle.fm3130_companion.specs.Part.{tick_of, rolled_of, backed_of, lost_of, returned_of};
ghost use Rattle.fm3130_companion.specs.Registers.{put_at};
ghost use Rattle.fm3130_companion.specs.Change.{with_registers};
ghost use Rattle.fm3130_companion.specs.Ways.{ways30};

use crate::{Companion, Registers};
use bus::Beat;
use bus_deeds::serve::{Desk, Taken};
use calendar::Rolled;
use fm3130_registers::control::{flags_after, por_set, w_falls};
use fm3130_registers::map::{CONTROL, LAST, next_address};

impl Companion {
    // The companion once its address stepped on.
    fn stepped(self) -> Companion
        requires { self.address ≤ LAST }
        ensures { result ≡ stepped_of self }
    {
        Companion {
            address: next_address(self.address),
            ..self
        }
    }

    // What an address byte leaves that no register has: the old address stands.
    fn refused_address(self) -> Taken<Companion>
        ensures { result ≡ refused_address self }
    {
        Taken {
            companion: self,
            acknowledged: false,
        }
    }

    // Whether a data byte is a write of 00h in which W falls while 02h to 08h hold no date and time that exist.
    fn loads_bad_date(self, byte: u8) -> bool
        ensures { result ≡ loads_bad_date self byte }
    {
        (self.address == CONTROL)
            & w_falls(self.registers.control, byte)
            & !self.registers.time.is_valid()
    }

    // What such a byte leaves: the address steps on, and nothing else changes.
    fn refused_date(self) -> Taken<Companion>
        requires { self.address ≤ LAST }
        ensures { result ≡ refused_date self }
    {
        Taken {
            companion: self.stepped(),
            acknowledged: false,
        }
    }

    // The companion with another 00h.
    fn with_control(self, control: u8) -> Companion
        ensures { result ≡ with_registers self (put_at self.registers CONTROL control) }
    {
        Companion {
            registers: Registers {
                control,
                ..self.registers
            },
            ..self
        }
    }

    // The companion once 00h was read as a byte.
    fn control_read(self, byte: u8) -> Companion
        ensures { result ≡ control_read self byte }
    {
        self.with_control(flags_after(self.registers.control, byte))
    }
}

impl Desk for Companion {
    type Told = Rolled;

    ghost ready = { λ c. c.address ≤ LAST };

    ghost ways = { ways30 };

    ghost told = { λ t c. rolled_of c };

    // An address byte: taken where a register has that address.
    #[tactic(auto, unfolding(crate::specs::Part::aim_of))]
    fn aim(self, byte: u8) -> Taken<Companion>
        ensures { result ≡ aim_of self byte }
    {
        if byte <= LAST {
            return Taken {
                companion: Companion {
                    address: byte,
                    ..self
                },
                acknowledged: true,
            };
        }
        self.refused_address()
    }

    // A data byte at its eighth clock: written to the register at the address, and the address steps on; or refused,
    // where it would load the core with a date that does not exist.
    #[tactic(auto, unfolding(crate::specs::Part::store_of))]
    fn store(self, byte: u8) -> Taken<Companion>
        requires { self.address ≤ LAST }
        ensures { result ≡ store_of self byte }
    {
        if self.loads_bad_date(byte) {
            return self.refused_date();
        }
        Taken {
            companion: self.written(byte).stepped(),
            acknowledged: true,
        }
    }

    // The byte at the address.
    #[tactic(auto, unfolding(crate::specs::Part::load_of))]
    fn load(self) -> u8
        requires { self.address ≤ LAST }
        ensures { result ≡ load_of self }
    {
        self.registers.read(self.address)
    }

    // The end of a read whose byte was fixed as the one given: of 00h the flags it showed are cleared; the address
    // steps on.
    #[tactic(auto, unfolding(crate::specs::Part::loaded_of))]
    fn loaded(self, byte: u8) -> Companion
        requires { self.address ≤ LAST }
        ensures { result ≡ loaded_of self byte }
    {
        if self.address == CONTROL {
            return self.control_read(byte).stepped();
        }
        self.stepped()
    }

    // A tick, with the field of the calendar that it changed. The FM3130 has no counter inputs: no event of its eight is
    // an edge.
    fn beat(self, _beat: Beat) -> (Companion, Rolled)
        ensures { result ≡ record { 0 = tick_of self; 1 = rolled_of self } }
    {
        let ticked = self.tick();
        (ticked.companion, ticked.rolled)
    }

    // Main power lost with backup: the address is 0 again, the rest is kept.
    fn backed(self) -> Companion
        ensures { result ≡ backed_of self }
    {
        Companion { address: 0, ..self }
    }

    // Both supplies gone.
    fn lost(self) -> Companion
        ensures { result ≡ lost_of }
    {
        Companion::fresh()
    }

    // Main power back after backup: POR is set.
    #[tactic(auto, unfolding(crate::specs::Power::returned_of))]
    fn returned(self) -> Companion
        ensures { result ≡ returned_of self }
    {
        self.with_control(por_set(self.registers.control))
    }
}
