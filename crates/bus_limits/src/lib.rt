// SPDX-License-Identifier: Apache-2.0
// The limits of all of a part but its companion: which buses are well-formed, over the size, the select bits, and the
// companion's first and last address. Every event keeps them (`Keeps`).
#![tactic(auto)]

ghost use Rattle.std.specs.Prelude.{◌≡◌, ℕ};
ghost use Rattle.wire.specs.Limits.{bits_fit, phase_within};
ghost use Rattle.wire.specs.declared.Phase.TheVariants.{Slave, Pointer, Read};
ghost use Rattle.bus.specs.Select.{slave_names_for};
ghost use Rattle.bus_limits.specs.Limits.{is_between, is_idle, power_within, bus_within};

use bus::select::names_for;
use bus::{Bus, Power};
use wire::slave::answers;
use wire::{Phase, Side};

// Of a byte that comes in, only the bits of the clocks done can be set.
fn bits_fit(clocks: u8, byte: u8) -> bool
    ensures { result ≡ bits_fit clocks byte }
{
    match clocks {
        0..=7 => byte >> clocks == 0,
        8 => true,
        _ => false,
    }
}

// A slave byte that waits for its acknowledge names somebody.
fn slave_within(select: u8, clocks: u8, byte: u8) -> bool
    ensures { (first last : ℕ) → result ≡ phase_within (slave_names_for select) (is_between first last) (Slave clocks byte) }
{
    bits_fit(clocks, byte) & ((clocks != 8) | answers(names_for(select, byte)))
}

// A companion address byte that waits for its acknowledge is a register's.
fn pointer_within(select: u8, first: u8, last: u8, clocks: u8, byte: u8) -> bool
    ensures { result ≡ phase_within (slave_names_for select) (is_between first last) (Pointer clocks byte) }
{
    bits_fit(clocks, byte) & ((clocks != 8) | ((first <= byte) & (byte <= last)))
}

// A byte that goes out is 0 before its first clock.
fn read_within(select: u8, side: Side, clocks: u8, byte: u8) -> bool
    ensures { (first last : ℕ) → result ≡ phase_within (slave_names_for select) (is_between first last) (Read side clocks byte) }
{
    (clocks <= 8) & ((clocks != 0) | (byte == 0))
}

// The limits of each phase.
pub fn phase_within(select: u8, first: u8, last: u8, phase: Phase) -> bool
    ensures { result ≡ phase_within (slave_names_for select) (is_between first last) phase }
{
    match phase {
        Phase::Idle => true,
        Phase::Slave { clocks, byte } => slave_within(select, clocks, byte),
        Phase::Pointer { clocks, byte } => pointer_within(select, first, last, clocks, byte),
        Phase::AddressHigh { clocks, byte }
        | Phase::AddressLow { clocks, byte, .. }
        | Phase::Write { clocks, byte, .. } => bits_fit(clocks, byte),
        Phase::Read { side, clocks, byte } => read_within(select, side, clocks, byte),
    }
}

// Whether no transfer is under way.
pub fn is_idle(phase: Phase) -> bool
    ensures { result ≡ is_idle phase }
{
    matches!(phase, Phase::Idle)
}

// A transfer exists only while main power is present.
pub fn power_within(power: Power, phase: Phase) -> bool
    ensures { result ≡ power_within power phase }
{
    match power {
        Power::On => true,
        Power::Backup | Power::Off => is_idle(phase),
    }
}

// Whether a bus is within the limits of a part of this size, whose companion has these addresses.
pub fn bus_within(bus: Bus, size: u16, select: u8, first: u8, last: u8) -> bool
    ensures { result ≡ bus_within size select first last bus }
{
    (bus.address < size)
        & phase_within(select, first, last, bus.phase)
        & power_within(bus.power, bus.phase)
}
