// SPDX-License-Identifier: Apache-2.0
// The entries for C. Each tests the count of devices first, then in the order of the numbers, before anything is written.
ghost use Rattle.std.specs.Prelude.{◌≡◌};
ghost use Rattle.numbers.specs.Refusal.{number_told};
ghost use Rattle.set_event.specs.Outcome.{lent_to};
ghost use Rattle.c_fm31set.specs.Entry.{CheckSettled, run_number, RunSettled};

use numbers::{Refusal, number_told};
use set_image::Reading;
use set_image::read::read_set;
use set_image::write::write_images;
use set_make::{accept, are_lent, is_count, selects_differ, stand_together};
use set_run::run::{all_known, run_events};

// Accepts a set that is to be made, or says why it is refused.
#[tactic(auto, unfolding(crate::specs::Entry::check_of))]
fn check(
    plan: &[u8],
    images: &[u8],
    one: &[u8],
    two: &[u8],
    three: &[u8],
    four: &[u8],
) -> Result<(), Refusal>
    ensures { CheckSettled plan.now images.now
        one.now two.now three.now four.now (number_told result) }
{
    let Reading { good, set } = read_set(plan, images);
    if !is_count(set.count) {
        return Err(Refusal::WrongCount);
    }
    if !are_lent(set, one, two, three, four) {
        return Err(Refusal::WrongMemory);
    }
    if !good {
        return Err(Refusal::WrongState);
    }
    accept(set, one, two, three, four)
}

// The number by which a set is refused when it is made, 0 if it is not. Nothing is written.
#[unsafe(no_mangle)]
pub extern "C" fn fm31_set_check(
    plan: &[u8],
    images: &[u8],
    one: &[u8],
    two: &[u8],
    three: &[u8],
    four: &[u8],
) -> u64
    ensures { CheckSettled plan.now images.now
        one.now two.now three.now four.now result }
{
    number_told(check(plan, images, one, two, three, four))
}

// Accepts a list of events with this room for its answers, or says why it is refused.
#[tactic(auto, unfolding(crate::specs::Entry::run_number))]
fn accept_run(
    read: Reading,
    one: &[u8],
    two: &[u8],
    three: &[u8],
    four: &[u8],
    events: &[u8],
    room: usize,
) -> Result<(), Refusal>
    ensures { number_told result ≡ run_number read.good
        (lent_to read.set one.now two.now three.now four.now)
        events.now room }
{
    let set = read.set;
    if !is_count(set.count) {
        return Err(Refusal::WrongCount);
    }
    if !are_lent(set, one, two, three, four) {
        return Err(Refusal::WrongMemory);
    }
    if !read.good {
        return Err(Refusal::WrongState);
    }
    if !all_known(set.count, events) {
        return Err(Refusal::UnknownEvent);
    }
    if room < events.len() {
        return Err(Refusal::ShortAnswers);
    }
    if !selects_differ(set) {
        return Err(Refusal::EqualSelects);
    }
    if !stand_together(set) {
        return Err(Refusal::InTransfer);
    }
    Ok(())
}

// The list run: refused by the first refusal that fits, with nothing written; or every event done on the set, the line
// after it written as its answer, and the images of the devices that the events lead to.
fn run(
    plan: &[u8],
    images: &mut [u8],
    one: &mut [u8],
    two: &mut [u8],
    three: &mut [u8],
    four: &mut [u8],
    events: &[u8],
    answers: &mut [u8],
) -> Result<(), Refusal>
    ensures { RunSettled plan.now images.old
        one.old two.old three.old four.old
        events.now answers.old (number_told result) images.new
        one.new two.new three.new four.new answers.new }
{
    let read = read_set(plan, images);
    accept_run(read, one, two, three, four, events, answers.len())?;
    let last = run_events(read.set, one, two, three, four, events, answers);
    write_images(last, images, read.set.count);
    Ok(())
}

// The list run for C.
#[unsafe(no_mangle)]
pub extern "C" fn fm31_set_run(
    plan: &[u8],
    images: &mut [u8],
    one: &mut [u8],
    two: &mut [u8],
    three: &mut [u8],
    four: &mut [u8],
    events: &[u8],
    answers: &mut [u8],
) -> u64
    ensures { RunSettled plan.now images.old
        one.old two.old three.old four.old
        events.now answers.old result images.new
        one.new two.new three.new four.new answers.new }
{
    number_told(run(plan, images, one, two, three, four, events, answers))
}
