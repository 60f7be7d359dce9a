// SPDX-License-Identifier: Apache-2.0
// What a data byte does to the register at the companion's address.
ghost use Rattle.std.specs.Prelude.{◌≡◌, ◌<◌, ◌≤◌};
ghost use Rattle.fm3130_registers.specs.Map.{TRIM, LAST};
ghost use Rattle.fm3130_companion.specs.Write.{control_written, trim_written};
ghost use Rattle.fm3130_companion.specs.Write.{byte_stored, time_written, written_of};

use crate::{Companion, Registers};
use bits::has;
use fm3130_registers::control::{control_after, core_after, time_after};
use fm3130_registers::map::{CONTROL, TRIM, W, YEARS};
use fm3130_registers::stored::{stored, trim_after};

impl Companion {
    // A write of 00h: the core first, then 02h to 08h by the core as it now is.
    fn control_written(self, byte: u8) -> Companion
        ensures { result ≡ control_written self byte }
    {
        let registers = self.registers;
        let old = registers.control;
        let core = core_after(old, byte, self.core, registers.time);
        Companion {
            registers: Registers {
                control: control_after(old, byte),
                time: time_after(old, byte, core, registers.time),
                ..registers
            },
            core,
            ..self
        }
    }

    // A write of 01h.
    fn trim_written(self, byte: u8) -> Companion
        ensures { result ≡ trim_written self byte }
    {
        let registers = self.registers;
        let trim = trim_after(registers.control, registers.trim, byte);
        Companion {
            registers: Registers { trim, ..registers },
            ..self
        }
    }

    // A write to a register that keeps its stored bits at any time.
    fn byte_stored(self, byte: u8) -> Companion
        requires { (TRIM < self.address) × (self.address ≤ LAST) }
        ensures { result ≡ byte_stored self byte }
    {
        let kept = stored(self.address, byte);
        Companion {
            registers: self.registers.put(self.address, kept),
            ..self
        }
    }

    // A write to one of 02h to 08h: stored only with W at 1.
    fn time_written(self, byte: u8) -> Companion
        requires { (TRIM < self.address) × (self.address ≤ LAST) }
        ensures { result ≡ time_written self byte }
    {
        if has(self.registers.control, W) {
            return self.byte_stored(byte);
        }
        self
    }

    // A write to the register at the address.
    pub(crate) fn written(self, byte: u8) -> Companion
        requires { self.address ≤ LAST }
        ensures { result ≡ written_of self byte }
    {
        match self.address {
            CONTROL => self.control_written(byte),
            TRIM => self.trim_written(byte),
            ..=YEARS => self.time_written(byte),
            _ => self.byte_stored(byte),
        }
    }
}
