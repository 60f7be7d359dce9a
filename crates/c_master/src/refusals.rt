// SPDX-License-Identifier: Apache-2.0
// The master's own refusals, in the order of their numbers, and the tests and limits behind them.
ghost use Rattle.std.specs.Prelude.{◌≡◌, ◌≢◌, ◌≤◌, ◌<◌, IfOk, OnOk, IfErr};
ghost use Rattle.fm3130.specs.Chip.{memory_size};
ghost use Rattle.c_master.specs.Numbers.{most};
ghost use Rattle.c_master.specs.Refusal.{number_of};
ghost use Rattle.wire_clocks.specs.Events.{write_count, read_count};

use fm3130::MEMORY_SIZE;

// none of the refusals
pub const ACCEPTED: u64 = 0;

#[derive(Clone, Copy, Debug, PartialEq, Eq)]
pub enum Refusal {
    // more data bytes than one transaction has
    TooMany = 1,
    // a read of no byte
    ReadOfNone = 2,
    // an address past the memory's end
    WrongAddress = 3,
    // a lent buffer too short for what goes into it
    LittleRoom = 4,
    // not as many answers as the transaction has events
    WrongAnswers = 5,
}

// The number as a host program is told it.
impl From<Refusal> for u64 {
    ghost from_gives = { λ refusal number. number ≡ number_of refusal };

    fn from(refusal: Refusal) -> u64 {
        refusal as u64
    }
}

// The most data bytes of one transaction.
pub const MOST: u64 = 256;

// How many events a write of so many bytes has: two for Start and Stop, 27 for the slave byte and the address.
pub(crate) fn write_count(count: usize) -> usize
    requires { count ≤ most }
    ensures { result ≡ write_count count }
{
    29 + 9 * count
}

// How many events a read of so many bytes has: a second Start and a second slave byte more.
pub(crate) fn read_count(count: usize) -> usize
    requires { count ≤ most }
    ensures { result ≡ read_count count }
{
    39 + 9 * count
}

// So many data bytes, if one transaction has them.
pub(crate) fn few_enough(count: u64) -> Result<usize, Refusal>
    ensures ok { IfOk result (λ all. (all ≡ count) × (count ≤ most)) }
    ensures too_many { IfErr result (λ refusal. (refusal ≡ Refusal.TooMany) × (most < count)) }
{
    if count > MOST {
        return Err(Refusal::TooMany);
    }
    Ok(count as usize)
}

// That a read asks for a byte.
pub(crate) fn at_least_one(count: usize) -> Result<(), Refusal>
    ensures ok { OnOk result (count ≢ 0) }
    ensures read_of_none { IfErr result (λ refusal. (refusal ≡ Refusal.ReadOfNone) × (count ≡ 0)) }
{
    if count == 0 {
        return Err(Refusal::ReadOfNone);
    }
    Ok(())
}

// The address, if the memory has it.
pub(crate) fn in_memory(address: u64) -> Result<u16, Refusal>
    ensures ok { IfOk result (λ place. (place ≡ address) × (address < memory_size)) }
    ensures wrong_address { IfErr result (λ refusal. (refusal ≡ Refusal.WrongAddress) × (memory_size ≤ address)) }
{
    if address >= MEMORY_SIZE as u64 {
        return Err(Refusal::WrongAddress);
    }
    Ok(address as u16)
}

// That a lent buffer of this length has room for so many bytes.
pub(crate) fn has_room(room: usize, count: usize) -> Result<(), Refusal>
    ensures ok { OnOk result (count ≤ room) }
    ensures little_room { IfErr result (λ refusal. (refusal ≡ Refusal.LittleRoom) × (room < count)) }
{
    if room < count {
        return Err(Refusal::LittleRoom);
    }
    Ok(())
}

// That there are as many answers as events.
pub(crate) fn as_many(answers: usize, events: usize) -> Result<(), Refusal>
    ensures ok { OnOk result (answers ≡ events) }
    ensures wrong_answers { IfErr result (λ refusal. (refusal ≡ Refusal.WrongAnswers) × (answers ≢ events)) }
{
    if answers != events {
        return Err(Refusal::WrongAnswers);
    }
    Ok(())
}
