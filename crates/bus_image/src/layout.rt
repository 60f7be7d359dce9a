// SPDX-License-Identifier: Apache-2.0
// The supplies and the phase as the numbers of an image, and back. A number that stands for nothing reads as the last
// case; an image that has one is not accepted. And a whole bus, at its places.
ghost use Rattle.std.specs.Prelude.{◌≡◌, length};
ghost use Rattle.std.proofs.lemmas.List.Edits.{sets};
ghost use Rattle.bus_image.specs.Layout.{power_number, power_of, transfer_of, phase_of, transfer_at, bus_bytes, bus_at};
ghost use Rattle.bus_image.specs.Places.{ADDRESS_HIGH_AT};

use crate::Transfer;
use crate::bytes::pair;
use crate::phases::{
    ADDRESS_HIGH, ADDRESS_LOW, IDLE, POINTER, POWER_BACKUP, POWER_OFF, POWER_ON, READ_COMPANION,
    READ_MEMORY, SLAVE, WRITE_COMPANION, WRITE_MEMORY,
};
use crate::places::{
    ADDRESS_HIGH_AT, ADDRESS_LOW_AT, BYTE_AT, CLOCKS_AT, FIRST_AT, PHASE_AT, SUPPLIES_AT,
};
use bus::{Bus, Power};
use wire::{Phase, Side};

// Byte 25 of an image.
// Stays (plain): these two are no `From`, since neither `Power` nor `u8` is a type of this crate; the phase has `Transfer`.
pub fn power_number(power: Power) -> u8
    ensures { result ≡ power_number power }
{
    match power {
        Power::On => POWER_ON,
        Power::Backup => POWER_BACKUP,
        Power::Off => POWER_OFF,
    }
}

// The supplies of a byte 25.
#[tactic(auto, unfolding(crate::specs::Layout::power_of))]
pub fn power_of(number: u8) -> Power
    ensures { result ≡ power_of number }
{
    match number {
        POWER_ON => Power::On,
        POWER_BACKUP => Power::Backup,
        _ => Power::Off,
    }
}

// Bytes 26 to 29 of an image.
impl From<Phase> for Transfer {
    ghost from_gives = { λ phase transfer. transfer ≡ transfer_of phase };

    fn from(phase: Phase) -> Transfer {
        let (number, clocks, byte, first) = match phase {
            Phase::Idle => (IDLE, 0, 0, 0),
            Phase::Slave { clocks, byte } => (SLAVE, clocks, byte, 0),
            Phase::AddressHigh { clocks, byte } => (ADDRESS_HIGH, clocks, byte, 0),
            Phase::AddressLow { high, clocks, byte } => (ADDRESS_LOW, clocks, byte, high),
            Phase::Pointer { clocks, byte } => (POINTER, clocks, byte, 0),
            Phase::Write {
                side: Side::Memory,
                clocks,
                byte,
            } => (WRITE_MEMORY, clocks, byte, 0),
            Phase::Write {
                side: Side::Companion,
                clocks,
                byte,
            } => (WRITE_COMPANION, clocks, byte, 0),
            Phase::Read {
                side: Side::Memory,
                clocks,
                byte,
            } => (READ_MEMORY, clocks, byte, 0),
            Phase::Read {
                side: Side::Companion,
                clocks,
                byte,
            } => (READ_COMPANION, clocks, byte, 0),
        };
        Transfer {
            phase: number,
            clocks,
            byte,
            first,
        }
    }
}

// The phase of bytes 26 to 29.
impl From<Transfer> for Phase {
    ghost from_gives = { λ transfer phase. phase ≡ phase_of transfer.phase transfer.clocks transfer.byte transfer.first };

    #[tactic(auto, unfolding(crate::specs::Layout::phase_of))]
    fn from(transfer: Transfer) -> Phase {
        let Transfer {
            phase,
            clocks,
            byte,
            first: high,
        } = transfer;
        match phase {
            SLAVE => Phase::Slave { clocks, byte },
            ADDRESS_HIGH => Phase::AddressHigh { clocks, byte },
            ADDRESS_LOW => Phase::AddressLow { high, clocks, byte },
            POINTER => Phase::Pointer { clocks, byte },
            WRITE_MEMORY => Phase::Write {
                side: Side::Memory,
                clocks,
                byte,
            },
            WRITE_COMPANION => Phase::Write {
                side: Side::Companion,
                clocks,
                byte,
            },
            READ_MEMORY => Phase::Read {
                side: Side::Memory,
                clocks,
                byte,
            },
            READ_COMPANION => Phase::Read {
                side: Side::Companion,
                clocks,
                byte,
            },
            _ => Phase::Idle,
        }
    }
}

// Bytes 26 to 29 of an image, as they lie.
pub fn transfer_at(image: &[u8]) -> Transfer
    requires { length image.now ≡ 64 }
    ensures { result ≡ transfer_at image.now }
{
    Transfer {
        phase: image[PHASE_AT],
        clocks: image[CLOCKS_AT],
        byte: image[BYTE_AT],
        first: image[FIRST_AT],
    }
}

// Writes a bus over bytes 23 to 29 of an image.
pub fn write_bus(image: &mut [u8], bus: Bus)
    requires { length image.old ≡ 64 }
    ensures { image.new ≡ sets image.old ADDRESS_HIGH_AT (bus_bytes bus) }
{
    let [high, low] = bus.address.to_be_bytes();
    let transfer = Transfer::from(bus.phase);
    image[ADDRESS_HIGH_AT] = high;
    image[ADDRESS_LOW_AT] = low;
    image[SUPPLIES_AT] = power_number(bus.power);
    image[PHASE_AT] = transfer.phase;
    image[CLOCKS_AT] = transfer.clocks;
    image[BYTE_AT] = transfer.byte;
    image[FIRST_AT] = transfer.first;
}

// Bytes 23 to 29 of an image, as a bus.
pub fn bus_at(image: &[u8]) -> Bus
    requires { length image.now ≡ 64 }
    ensures { result ≡ bus_at image.now }
{
    Bus {
        power: power_of(image[SUPPLIES_AT]),
        phase: Phase::from(transfer_at(image)),
        address: pair(image[ADDRESS_HIGH_AT], image[ADDRESS_LOW_AT]),
    }
}
