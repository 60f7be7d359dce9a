// SPDX-License-Identifier: Apache-2.0
// The fifteen registers by address: what stands there, and what a store leaves.
ghost use Rattle.std.specs.Prelude.{◌≡◌, ◌≤◌};
ghost use Rattle.fm3130_registers.specs.Map.{LAST};
ghost use Rattle.fm3130_companion.specs.Registers.{register_at, put_at};

use crate::Registers;

impl Registers {
    // The byte at an address.
    pub(crate) fn read(self, address: u8) -> u8
        requires { address ≤ LAST }
        ensures { result ≡ register_at self address }
    {
        match address {
            0 => self.control,
            1 => self.trim,
            2 => self.time.seconds,
            3 => self.time.minutes,
            4 => self.time.hours,
            5 => self.time.day,
            6 => self.time.date,
            7 => self.time.month,
            8 => self.time.year,
            9 => self.alarm.seconds,
            10 => self.alarm.minutes,
            11 => self.alarm.hours,
            12 => self.alarm.date,
            13 => self.alarm.month,
            _ => self.setup,
        }
    }

    // The registers with a byte at an address.
    pub(crate) fn put(mut self, address: u8, byte: u8) -> Registers
        requires { address ≤ LAST }
        ensures { result ≡ put_at self address byte }
    {
        match address {
            0 => self.control = byte,
            1 => self.trim = byte,
            2 => self.time.seconds = byte,
            3 => self.time.minutes = byte,
            4 => self.time.hours = byte,
            5 => self.time.day = byte,
            6 => self.time.date = byte,
            7 => self.time.month = byte,
            8 => self.time.year = byte,
            9 => self.alarm.seconds = byte,
            10 => self.alarm.minutes = byte,
            11 => self.alarm.hours = byte,
            12 => self.alarm.date = byte,
            13 => self.alarm.month = byte,
            _ => self.setup = byte,
        }
        self
    }
}
