// SPDX-License-Identifier: Apache-2.0
// Who holds the bus, as the lent byte says it: 0 nobody, 1 the rig, 2 the handheld. What a master may do with it, and when a
// list of events frees it.
ghost use Rattle.std.specs.Prelude.{◌≡◌, cond, false, ◌&&◌, leb, Some, None, length};
ghost use Rattle.masters_hold.specs.Bus.{holds, may_ask, master_number, master_of, holder_of, standing_of};
ghost use Rattle.fm3130.specs.Event.{happening};
ghost use Rattle.masters_hold.specs.Bus.{any_bus, may_call, freed_by, frees, bus_freed};

use crate::{Master, Standing};

// The byte that says that nobody holds the bus.
const NOBODY: u8 = 0;

// A master's number.
pub fn master_number(master: Master) -> u8
    ensures { result ≡ master_number master }
{
    master as u8
}

// The master of a number, if there is one.
fn master_of(number: u64) -> Option<Master>
    ensures { result ≡ cond (leb 1 number && leb number 2) (Some (master_of number)) None }
{
    match number {
        1 => Some(Master::Rig),
        2 => Some(Master::Handheld),
        _ => None,
    }
}

// Whom a byte says to hold the bus, nobody or a master, if it says something.
fn holder_of(byte: u8) -> Option<Option<Master>>
    ensures { result ≡ cond (leb byte 2) (Some (holder_of byte)) None }
{
    if byte == NOBODY {
        return Some(None);
    }
    master_of(u64::from(byte)).map(Some)
}

// What the lent byte and a master's number say, if both exist.
pub fn standing(bus: &[u8], master: u64) -> Option<Standing>
    ensures { result ≡ standing_of bus.now master }
{
    let [byte] = bus else {
        return None;
    };
    Some(Standing {
        holder: holder_of(*byte)?,
        master: master_of(master)?,
    })
}

// Whether a master holds the bus.
fn holds(holder: Option<Master>, master: Master) -> bool
    ensures { result ≡ holds holder master }
{
    holder == Some(master)
}

// Whether an ask is answered: nobody holds the bus, or the asker itself.
pub fn may_ask(holder: Option<Master>, master: Master) -> bool
    ensures { result ≡ may_ask holder master }
{
    holder.is_none_or(|by| by == master)
}

// Whether some event is one of the bus: a Start, a Stop or a Clock. All are tested, by a fold and not by `any`, which stops early, so that
// many go at once.
fn any_bus(events: &[u8]) -> bool
    ensures { result ≡ any_bus events.now }
{
    events.iter().fold(false, |any, event| any | (*event <= 3))
}

// Whether a master may do these events: it holds the bus, or none of them is one of the bus.
pub fn may_call(holder: Option<Master>, master: Master, events: &[u8]) -> bool
    ensures { result ≡ may_call holder master events.now }
{
    holds(holder, master) || !any_bus(events)
}

// Whether the bus was seen to be freed, after one more event.
fn freed_by(freed: bool, event: u8) -> bool
    ensures { result ≡ freed_by freed (happening event) }
{
    match event {
        0 => false,
        1 | 5 | 6 => true,
        _ => freed,
    }
}

// Whether the last Stop, event 5 or event 6 of a list has no Start after it.
fn frees(events: &[u8]) -> bool
    ensures { result ≡ frees false events.now }
{
    events
        .iter()
        .fold(false, |freed, event| freed_by(freed, *event))
}

// Frees the bus, where a list of events that was answered frees it.
pub fn free_after(events: &[u8], bus: &mut [u8])
    requires { length bus.old ≡ 1 }
    ensures { bus.new ≡ bus_freed events.now bus.old }
{
    if frees(events) {
        bus[0] = NOBODY;
    }
}
