// SPDX-License-Identifier: Apache-2.0
// What a data byte does to the register at the companion's address.
ghost use Rattle.std.specs.Prelude.{◌≡◌, ◌≤◌};
ghost use Rattle.fm31_counters.specs.Map.{FIRST, LAST};
ghost use Rattle.fm31_counters.specs.Write.{flags_after, watchdog_after, control_after, kept_at};
ghost use Rattle.fm31_counters.specs.Write.{is_locked, registers_after, snapshot_after, written_of};

use crate::map::{COUNTING, LB, POR, RC, SERIAL, SNL, WTR};
use crate::{Counters, Counts, Registers};
use bits::{has, only};

// 09h after a write: a flag stays only where the byte has it too; WR3 to WR0 are the byte's.
fn flags_after(old: u8, byte: u8) -> u8
    ensures { result ≡ flags_after old byte }
{
    let wtr = only(has(old, WTR) & has(byte, WTR), WTR);
    let por = only(has(old, POR) & has(byte, POR), POR);
    let lb = only(has(old, LB) & has(byte, LB), LB);
    wtr + por + lb + byte % 16
}

// 0Ah after a write.
fn watchdog_after(byte: u8) -> u8
    ensures { result ≡ watchdog_after byte }
{
    byte / 128 * 128 + byte % 32
}

// 0Bh after a write: SNL, once 1, stays.
fn control_after(old: u8, byte: u8) -> u8
    ensures { result ≡ control_after old byte }
{
    let snl = only(has(old, SNL) | has(byte, SNL), SNL);
    snl + byte % 32
}

impl Registers {
    // What the register at an address keeps of a byte.
    fn kept(self, address: u8, byte: u8) -> u8
        requires { (FIRST ≤ address) × (address ≤ LAST) }
        ensures { result ≡ kept_at self address byte }
    {
        match address {
            9 => flags_after(self.flags, byte),
            10 => watchdog_after(byte),
            11 => control_after(self.control, byte),
            12 => byte % 16,
            _ => byte,
        }
    }

    // Whether the serial number is locked.
    fn is_locked(self) -> bool
        ensures { result ≡ is_locked self }
    {
        has(self.control, SNL)
    }

    // The registers after a write: a locked serial number is not stored.
    fn after(self, address: u8, byte: u8) -> Registers
        requires { (FIRST ≤ address) × (address ≤ LAST) }
        ensures { result ≡ registers_after self address byte }
    {
        if self.is_locked() & (SERIAL <= address) {
            return self;
        }
        self.put(address, self.kept(address, byte))
    }
}

impl Counters {
    // The snapshot after a write: a byte for 0Ch that has RC takes the counters.
    fn snapshot_after(self, byte: u8) -> Counts
        ensures { result ≡ snapshot_after self byte }
    {
        if (self.address == COUNTING) & has(byte, RC) {
            return self.registers.counts;
        }
        self.snapshot
    }

    // A write to the register at the address.
    #[tactic(auto, unfolding(crate::specs::Write::written_of))]
    pub(crate) fn written(self, byte: u8) -> Counters
        requires { (FIRST ≤ self.address) × (self.address ≤ LAST) }
        ensures { result ≡ written_of self byte }
    {
        Counters {
            registers: self.registers.after(self.address, byte),
            snapshot: self.snapshot_after(byte),
            ..self
        }
    }
}
