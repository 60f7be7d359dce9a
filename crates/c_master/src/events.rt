// SPDX-License-Identifier: Apache-2.0
// The events of one whole transaction, ready for the list run: refused by the first number that fits, with nothing
// written; or laid at the front of the lent buffer, whose other bytes stay.
ghost use Rattle.c_master.specs.Outcome.{WriteEventsSettled, ReadEventsSettled};
ghost use Rattle.c_master.specs.Refusal.{filled_told};

use crate::Filled;
use crate::refusals::{
    Refusal, at_least_one, few_enough, has_room, in_memory, read_count, write_count,
};
use wire_clocks::lay::{
    LEFT_HIGH, READ_MEMORY, START, STOP, lay_asked, lay_byte, lay_event, lay_opening, lay_written,
};

// A write's tests in the order of their numbers, and how many events were laid.
fn write_events(address: u64, bytes: &[u8], events: &mut [u8]) -> Result<usize, Refusal>
    ensures { WriteEventsSettled address bytes.now events.old (filled_told result) events.new }
{
    let count = few_enough(bytes.len() as u64)?;
    let place = in_memory(address)?;
    has_room(events.len(), write_count(count))?;
    let opened = lay_opening(place, events);
    let sent = lay_written(bytes, events, opened);
    Ok(lay_event(STOP, events, sent))
}

// A read's tests in the order of their numbers, and how many events were laid.
fn read_events(address: u64, count: u64, events: &mut [u8]) -> Result<usize, Refusal>
    ensures { ReadEventsSettled address count events.old (filled_told result) events.new }
{
    let all = few_enough(count)?;
    at_least_one(all)?;
    let place = in_memory(address)?;
    has_room(events.len(), read_count(all))?;
    let opened = lay_opening(place, events);
    let again = lay_event(START, events, opened);
    let named = lay_byte(READ_MEMORY, true, events, again);
    let going = lay_asked(all - 1, events, named);
    let ended = lay_byte(LEFT_HIGH, true, events, going);
    Ok(lay_event(STOP, events, ended))
}

// The events of a write of bytes from an address on. A write of none sets the address.
#[unsafe(no_mangle)]
pub extern "C" fn fm3130_write_events(address: u64, bytes: &[u8], events: &mut [u8]) -> Filled
    ensures { WriteEventsSettled address bytes.now events.old result events.new }
{
    Filled::from(write_events(address, bytes, events))
}

// The events of a read of so many bytes from an address on: the address is set first, and the last byte's ninth clock is
// high, which ends the read.
#[unsafe(no_mangle)]
pub extern "C" fn fm3130_read_events(address: u64, count: u64, events: &mut [u8]) -> Filled
    ensures { ReadEventsSettled address count events.old result events.new }
{
    Filled::from(read_events(address, count, events))
}
