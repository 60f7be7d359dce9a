// SPDX-License-Identifier: Apache-2.0
// The other end of the wire for C: what `c_master` writes and reads, by the same clauses.
#![tactic(auto)]

ghost use Rattle.c_master.specs.Outcome.{WriteEventsSettled, ReadEventsSettled, WriteToldSettled, ReadToldSettled};

use c_master::Filled;

// The events of a write of bytes from an address on. A write of none sets the address.
#[unsafe(no_mangle)]
pub extern "C" fn fm3130_write_events(address: u64, bytes: &[u8], events: &mut [u8]) -> Filled
    ensures { WriteEventsSettled address bytes.now events.old result events.new }
{
    c_master::events::fm3130_write_events(address, bytes, events)
}

// The events of a read of so many bytes from an address on: the address is set first, and the last byte's ninth clock is
// high, which ends the read.
#[unsafe(no_mangle)]
pub extern "C" fn fm3130_read_events(address: u64, count: u64, events: &mut [u8]) -> Filled
    ensures { ReadEventsSettled address count events.old result events.new }
{
    c_master::events::fm3130_read_events(address, count, events)
}

// Of a write of so many data bytes: a flag for each, 1 if it was acknowledged.
#[unsafe(no_mangle)]
pub extern "C" fn fm3130_write_told(count: u64, answers: &[u8], flags: &mut [u8]) -> Filled
    ensures { WriteToldSettled count answers.now flags.old result flags.new }
{
    c_master::told::fm3130_write_told(count, answers, flags)
}

// Of a read of so many data bytes: the bytes, or none if a slave or address byte went unacknowledged.
#[unsafe(no_mangle)]
pub extern "C" fn fm3130_read_told(count: u64, answers: &[u8], bytes: &mut [u8]) -> Filled
    ensures { ReadToldSettled count answers.now bytes.old result bytes.new }
{
    c_master::told::fm3130_read_told(count, answers, bytes)
}
