// SPDX-License-Identifier: Apache-2.0
// The sixteen registers by address: what stands there, and what a store leaves.
ghost use Rattle.std.specs.Prelude.{◌≡◌, ◌≤◌};
ghost use Rattle.fm31_counters.specs.Map.{FIRST, LAST};
ghost use Rattle.fm31_counters.specs.Registers.{register_at, put_at};

use crate::Registers;
use crate::map::FIRST;

impl Registers {
    // The byte at an address.
    pub(crate) fn read(self, address: u8) -> u8
        requires { (FIRST ≤ address) × (address ≤ LAST) }
        ensures { result ≡ register_at self address }
    {
        match address - FIRST {
            0 => self.flags,
            1 => self.watchdog,
            2 => self.control,
            3 => self.counting,
            4 => self.counts.one.low,
            5 => self.counts.one.high,
            6 => self.counts.two.low,
            7 => self.counts.two.high,
            8 => self.serial.sn0,
            9 => self.serial.sn1,
            10 => self.serial.sn2,
            11 => self.serial.sn3,
            12 => self.serial.sn4,
            13 => self.serial.sn5,
            14 => self.serial.sn6,
            _ => self.serial.sn7,
        }
    }

    // The registers with a byte at an address.
    pub(crate) fn put(mut self, address: u8, byte: u8) -> Registers
        requires { (FIRST ≤ address) × (address ≤ LAST) }
        ensures { result ≡ put_at self address byte }
    {
        match address - FIRST {
            0 => self.flags = byte,
            1 => self.watchdog = byte,
            2 => self.control = byte,
            3 => self.counting = byte,
            4 => self.counts.one.low = byte,
            5 => self.counts.one.high = byte,
            6 => self.counts.two.low = byte,
            7 => self.counts.two.high = byte,
            8 => self.serial.sn0 = byte,
            9 => self.serial.sn1 = byte,
            10 => self.serial.sn2 = byte,
            11 => self.serial.sn3 = byte,
            12 => self.serial.sn4 = byte,
            13 => self.serial.sn5 = byte,
            14 => self.serial.sn6 = byte,
            _ => self.serial.sn7 = byte,
        }
        self
    }
}
