// SPDX-License-Identifier: Apache-2.0
// What the answers to a transaction say: which data bytes were acknowledged, or which bytes were read. Refused by the
// first number that fits, with nothing written; or told at the front of the lent buffer, whose other bytes stay.
ghost use Rattle.std.specs.Prelude.{◌≡◌, ◌+◌, ◌*◌, ◌<◌, ◌≤◌, length};
ghost use Rattle.std.proofs.lemmas.List.Edits.{sets};
ghost use Rattle.wire_clocks.specs.Clocks.{is_high, lines_of};
ghost use Rattle.c_master.specs.Told.{is_low, byte_from, is_open, is_open_read, flag_at, byte_at, list_of};
ghost use Rattle.c_master.specs.Outcome.{WriteToldSettled, ReadToldSettled};
ghost use Rattle.c_master.specs.Refusal.{filled_told};

use crate::Filled;
use crate::refusals::{
    Refusal, as_many, at_least_one, few_enough, has_room, read_count, write_count,
};
use wire::bits::push;

// The line that an answer shows.
fn is_high(answer: u8) -> bool
    ensures { result ≡ is_high answer }
{
    answer % 2 == 1
}

// Whether the line was low: at a ninth clock that the master leaves high, an acknowledge.
fn is_low(answers: &[u8], at: usize) -> bool
    requires { at < length answers.now }
    ensures { result ≡ is_low (lines_of answers.now) at }
{
    !is_high(answers[at])
}

// Whether the slave byte and both address bytes were acknowledged.
fn is_open(answers: &[u8]) -> bool
    requires { 28 ≤ length answers.now }
    ensures { result ≡ is_open (lines_of answers.now) }
{
    [9, 18, 27].iter().all(|at| is_low(answers, *at))
}

// Of a read, whether the second slave byte was acknowledged too.
fn is_open_read(answers: &[u8]) -> bool
    requires { 38 ≤ length answers.now }
    ensures { result ≡ is_open_read (lines_of answers.now) }
{
    is_open(answers) & is_low(answers, 37)
}

// The byte on the line in eight answers.
fn byte_from(answers: &[u8], at: usize) -> u8
    requires { at + 8 ≤ length answers.now }
    ensures { result ≡ byte_from (lines_of answers.now) at }
{
    answers[at..at + 8]
        .iter()
        .fold(0, |byte, answer| push(byte, is_high(*answer)))
}

// 1 for a data byte that was acknowledged, 0 for any other.
fn flag(ready: bool, answers: &[u8], i: usize) -> u8
    requires { (ready ≡ is_open (lines_of answers.now)) × (36 + 9 * i < length answers.now) }
    ensures { result ≡ flag_at (lines_of answers.now) i }
{
    u8::from(ready & is_low(answers, 36 + 9 * i))
}

// A flag for each data byte.
fn put_flags(count: usize, answers: &[u8], flags: &mut [u8])
    requires { (29 + 9 * count ≤ length answers.now) × (count ≤ length flags.old) }
    ensures { flags.new ≡ sets flags.old 0 (list_of (flag_at (lines_of answers.now)) count) }
{
    let ready = is_open(answers);
    for i in 0..count {
        flags[i] = flag(ready, answers, i);
    }
}

// The bytes that were read.
fn put_bytes(count: usize, answers: &[u8], bytes: &mut [u8])
    requires { (39 + 9 * count ≤ length answers.now) × (count ≤ length bytes.old) }
    ensures { bytes.new ≡ sets bytes.old 0 (list_of (byte_at (lines_of answers.now)) count) }
{
    for i in 0..count {
        bytes[i] = byte_from(answers, 38 + 9 * i);
    }
}

// The tests of a write's answers in the order of their numbers, and how many flags were given.
fn write_told(count: u64, answers: &[u8], flags: &mut [u8]) -> Result<usize, Refusal>
    ensures { WriteToldSettled count answers.now flags.old (filled_told result) flags.new }
{
    let all = few_enough(count)?;
    has_room(flags.len(), all)?;
    as_many(answers.len(), write_count(all))?;
    put_flags(all, answers, flags);
    Ok(all)
}

// The tests of a read's answers in the order of their numbers, and how many bytes were given.
fn read_told(count: u64, answers: &[u8], bytes: &mut [u8]) -> Result<usize, Refusal>
    ensures { ReadToldSettled count answers.now bytes.old (filled_told result) bytes.new }
{
    let all = few_enough(count)?;
    at_least_one(all)?;
    has_room(bytes.len(), all)?;
    as_many(answers.len(), read_count(all))?;
    if !is_open_read(answers) {
        return Ok(0);
    }
    put_bytes(all, answers, bytes);
    Ok(all)
}

// Of a write of so many data bytes: a flag for each, 1 if it was acknowledged.
#[unsafe(no_mangle)]
pub extern "C" fn fm3130_write_told(count: u64, answers: &[u8], flags: &mut [u8]) -> Filled
    ensures { WriteToldSettled count answers.now flags.old result flags.new }
{
    Filled::from(write_told(count, answers, flags))
}

// Of a read of so many data bytes: the bytes, or none if a slave or address byte went unacknowledged.
#[unsafe(no_mangle)]
pub extern "C" fn fm3130_read_told(count: u64, answers: &[u8], bytes: &mut [u8]) -> Filled
    ensures { ReadToldSettled count answers.now bytes.old result bytes.new }
{
    Filled::from(read_told(count, answers, bytes))
}
