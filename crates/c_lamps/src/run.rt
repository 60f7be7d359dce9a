// SPDX-License-Identifier: Apache-2.0
// The list run with the record. The device lies in its image, and the list is done in parts.
ghost use Rattle.std.specs.Prelude.{◌≡◌, true, not, ◌&&◌, ◌<◌, ◌≤◌, eqb, length};
ghost use Rattle.fm3130.specs.Chip.{memory_size};
ghost use Rattle.fm3130.specs.Limits.{well_formed};
ghost use Rattle.fm3130_image.specs.Image.{candidate};
ghost use Rattle.place_clock.specs.Code.Clocking.{Accepted};
ghost use Rattle.fm3130_list.specs.Run.{all_known, RanThrough};
ghost use Rattle.c_lamps.specs.Row.{Row, RowDone};
ghost use Rattle.c_lamps.specs.Run.{RanWith, RanInImage, shown, LampsSettled};

use crate::row::{after_row, part_length};
use crate::{Reached, Shown};
use bus_image::bytes::pair;
use bus_image::phases::IDLE;
use bus_image::places::{ADDRESS_HIGH_AT, ADDRESS_LOW_AT, CLOCKS_AT, PHASE_AT};
use c_run::run::run_events;
use fm3130::{Answered, State};
use fm3130_accept::admit;
use fm3130_image::read::state_at;
use fm3130_image::write::image_of;
use fm3130_list::all_known;
use lamps::{Follower, Proving};
use lamps_bytes::{is_kept, read, write};
use numbers::{ACCEPTED, Refusal};
use place_event::event::happen;

// Whether a byte was refused: it was of a transfer, has all eight clocks done, and the transfer has ended.
fn is_refused(number: u8, done: usize, next: u8) -> bool
    ensures { result ≡ ((not (eqb number 0) && eqb done 8) && eqb next 0) }
{
    number != IDLE && done == 8 && next == IDLE
}

// Clocks of one byte, and what the record keeps of it.
fn row(
    image: &mut [u8],
    memory: &mut [u8],
    events: &[u8],
    answers: &mut [u8],
    follower: Follower,
) -> Follower
    requires accepted { Accepted image.old memory.old }
    requires events_value { (all_known events.now ≡ true) × (length answers.old ≡ length events.now) }
    requires row { Row (candidate image.old) follower events.now }
    ensures { RowDone (candidate image.old) follower memory.old events.now
        answers.old result image.new memory.new answers.new }
{
    let number = image[PHASE_AT];
    let clocks = image[CLOCKS_AT];
    let address = pair(image[ADDRESS_HIGH_AT], image[ADDRESS_LOW_AT]);
    run_events(image, memory, events, answers);
    let done = usize::from(clocks) + events.len();
    let refused = is_refused(number, done, image[PHASE_AT]);
    after_row(follower, number, clocks, address, refused, answers)
}

// One event, and one step of the record.
fn one(
    image: &mut [u8],
    memory: &mut [u8],
    events: &[u8],
    answers: &mut [u8],
    proving: Proving,
) -> Proving
    requires accepted { Accepted image.old memory.old }
    requires events_value { (all_known events.now ≡ true) × (length answers.old ≡ length events.now) × (length events.now ≡ 1) }
    ensures { RanInImage (candidate image.old) proving memory.old events.now
        answers.old result image.new memory.new answers.new }
{
    let before = state_at(image);
    let event = events[0];
    let answer = happen(image, memory, event);
    answers[0] = answer;
    let state = state_at(image);
    proving.step(before, event, Answered { state, answer })
}

// A part of the list.
fn part(
    image: &mut [u8],
    memory: &mut [u8],
    events: &[u8],
    answers: &mut [u8],
    proving: Proving,
) -> Proving
    requires accepted { Accepted image.old memory.old }
    requires events_value { (all_known events.now ≡ true) × (length answers.old ≡ length events.now) × (0 < length events.now) }
    requires row { 1 < length events.now → Row (candidate image.old) proving.follower events.now }
    ensures { RanInImage (candidate image.old) proving memory.old events.now
        answers.old result image.new memory.new answers.new }
{
    if events.len() == 1 {
        return one(image, memory, events, answers, proving);
    }
    Proving {
        follower: row(image, memory, events, answers, proving.follower),
        ..proving
    }
}

// All events, in parts, the record stepped with the device.
fn follow_in_parts(
    image: &mut [u8],
    memory: &mut [u8],
    events: &[u8],
    answers: &mut [u8],
    proving: Proving,
) -> Proving
    requires accepted { Accepted image.old memory.old }
    requires events_value { (all_known events.now ≡ true) × (length events.now ≤ length answers.old) }
    ensures { RanInImage (candidate image.old) proving memory.old events.now
        answers.old result image.new memory.new answers.new }
{
    let mut kept = proving;
    let mut i = 0;
    // Stays (plain): each part's length is told by the image that the parts before it left, so no `for` can count it
    while i < events.len() {
        let end = i + part_length(image, kept.follower.refused, &events[i..]);
        kept = part(image, memory, &events[i..end], &mut answers[i..end], kept);
        i = end;
    }
    kept
}

// The same by value: all events on a state, and the state they lead to.
fn follow_events(
    state: State,
    proving: Proving,
    memory: &mut [u8],
    events: &[u8],
    answers: &mut [u8],
) -> Reached
    requires state_value { (well_formed state ≡ true) × (length memory.old ≡ memory_size) }
    requires events_value { (all_known events.now ≡ true) × (length events.now ≤ length answers.old) }
    ensures { RanWith state proving memory.old events.now answers.old
        result memory.new answers.new }
{
    let mut image = image_of(state);
    let proving = follow_in_parts(&mut image, memory, events, answers, proving);
    let state = state_at(&image);
    Reached { state, proving }
}

// What a call returns. A refused one shows all dark, so that a caller who looks at the report alone shows no lamp.
fn shown(outcome: Result<u8, Refusal>) -> Shown
    ensures { result ≡ shown outcome }
{
    match outcome {
        Ok(report) => Shown {
            number: u64::from(ACCEPTED),
            report: u64::from(report),
        },
        Err(refusal) => Shown {
            number: u64::from(refusal.number()),
            report: 0,
        },
    }
}

// The list run with the record: refused by the first number that fits, with nothing written; or every event done, its
// answer, the image and the record's bytes written, and the report returned.
fn run_lamps(
    image: &mut [u8],
    memory: &mut [u8],
    events: &[u8],
    answers: &mut [u8],
    kept: &mut [u8],
) -> Result<u8, Refusal>
    ensures { LampsSettled image.old memory.old events.now answers.old
        kept.old (shown result) image.new memory.new answers.new kept.new }
{
    admit(image, memory)?;
    if !is_kept(kept) {
        return Err(Refusal::WrongState);
    }
    if !all_known(events) {
        return Err(Refusal::UnknownEvent);
    }
    if answers.len() < events.len() {
        return Err(Refusal::ShortAnswers);
    }
    let proving = read(kept);
    let stepped = follow_in_parts(image, memory, events, answers, proving);
    write(stepped, kept);
    Ok(stepped.report())
}

// The same for C.
#[unsafe(no_mangle)]
pub extern "C" fn fm3130_lamps(
    image: &mut [u8],
    memory: &mut [u8],
    events: &[u8],
    answers: &mut [u8],
    kept: &mut [u8],
) -> Shown
    ensures { LampsSettled image.old memory.old events.now answers.old
        kept.old result image.new memory.new answers.new kept.new }
{
    shown(run_lamps(image, memory, events, answers, kept))
}
