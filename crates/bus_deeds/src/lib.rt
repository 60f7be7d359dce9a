// SPDX-License-Identifier: Apache-2.0
// What an event asks of a part's companion, and, in `serve`, the companion doing it. The rest of the event is the matter of
// `bus`, which is handed the reply; both together are the event (law `Split.split`).
#![tactic(auto)]

ghost use Rattle.std.specs.Prelude.{◌≡◌, ◌≤◌};
ghost use Rattle.wire.specs.Bits.{place_at};
ghost use Rattle.bus.specs.Happening.{happening, edges};
ghost use Rattle.bus_deeds.specs.Serve.{at_last, at_ends, clock_deed, deed_of};
ghost use Rattle.bus.specs.declared.Power.TheVariants.{On, Backup};
ghost use Rattle.wire.specs.declared.Phase.{Phase};

use bus::{Beat, Bus, Power};
use wire::bits::push;
use wire::{Phase, Side};

pub mod serve;

// What an event asks of the companion: to take an address byte; a data byte; the byte at its address; to note that this byte
// was read; a tick or edge; the loss of main power, of both supplies, the return of main power after backup.
// Stays (plain): `Nothing` is a deed and no `Option`, since definition and code answer and do every event by one match.
#[derive(Clone, Copy, Debug, PartialEq, Eq)]
pub enum Deed {
    Nothing,
    Aim(u8),
    Store(u8),
    Load,
    Loaded(u8),
    Beat(Beat),
    Backed,
    Lost,
    Returned,
}

// A Clock in a byte for the companion: what the whole byte asks, at its eighth clock.
#[tactic(auto, unfolding(crate::specs::Serve::at_last, wire::specs::Bits::place_at), using(crate::proofs::Asked::last_none))]
fn at_eighth(clocks: u8, whole: Deed) -> Deed
    ensures { result ≡ at_last (place_at clocks) whole }
{
    if clocks == 7 { whole } else { Deed::Nothing }
}

// A Clock in a data byte from the companion: fixed at its first clock, read at its eighth.
#[tactic(auto, unfolding(crate::specs::Serve::at_ends, wire::specs::Bits::place_at), using(crate::proofs::Asked::ends_none))]
fn load_asks(clocks: u8, byte: u8) -> Deed
    ensures { result ≡ at_ends (place_at clocks) byte }
{
    match clocks {
        0 => Deed::Load,
        7 => Deed::Loaded(byte),
        _ => Deed::Nothing,
    }
}

// A Clock, by phase.
#[tactic(auto, unfolding(crate::specs::Serve::clock_deed))]
fn clock_asks(phase: Phase, high: bool) -> Deed
    ensures { result ≡ clock_deed phase high }
{
    match phase {
        Phase::Pointer { clocks, byte } => at_eighth(clocks, Deed::Aim(push(byte, high))),
        Phase::Write {
            side: Side::Companion,
            clocks,
            byte,
        } => at_eighth(clocks, Deed::Store(push(byte, high))),
        Phase::Read {
            side: Side::Companion,
            clocks,
            byte,
        } => load_asks(clocks, byte),
        Phase::Idle
        | Phase::Slave { .. }
        | Phase::AddressHigh { .. }
        | Phase::AddressLow { .. }
        | Phase::Write { .. }
        | Phase::Read { .. } => Deed::Nothing,
    }
}

// An event while main power is present.
#[tactic(auto, unfolding(crate::specs::Serve::deed_of, bus::specs::Happening::happening))]
fn on_asks(phase: Phase, event: u8) -> Deed
    requires { event ≤ 9 }
    ensures { result ≡ deed_of On phase (happening edges event) }
{
    match event {
        0 | 1 | 7 => Deed::Nothing,
        2 => clock_asks(phase, false),
        3 => clock_asks(phase, true),
        4 => Deed::Beat(Beat::Second),
        5 => Deed::Backed,
        6 => Deed::Lost,
        8 => Deed::Beat(Beat::Cnt1),
        _ => Deed::Beat(Beat::Cnt2),
    }
}

// An event while backup alone is present.
#[tactic(auto, unfolding(crate::specs::Serve::deed_of, bus::specs::Happening::happening))]
fn backup_asks(event: u8) -> Deed
    requires { event ≤ 9 }
    ensures { (p : Phase) → result ≡ deed_of Backup p (happening edges event) }
{
    match event {
        0..=3 | 5 => Deed::Nothing,
        4 => Deed::Beat(Beat::Second),
        6 => Deed::Lost,
        7 => Deed::Returned,
        8 => Deed::Beat(Beat::Cnt1),
        _ => Deed::Beat(Beat::Cnt2),
    }
}

// What an event asks of the companion.
#[tactic(auto, unfolding(crate::specs::Serve::deed_of))]
pub fn deed_of(bus: Bus, event: u8) -> Deed
    requires { event ≤ 9 }
    ensures { result ≡ deed_of bus.power bus.phase (happening edges event) }
{
    match bus.power {
        Power::On => on_asks(bus.phase, event),
        Power::Backup => backup_asks(event),
        Power::Off => Deed::Nothing,
    }
}
