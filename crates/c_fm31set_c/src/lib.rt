// SPDX-License-Identifier: Apache-2.0
// A set of devices for C: whether it can be made and its list run, as `c_fm31set` does them, by the same clauses.
#![tactic(auto)]

ghost use Rattle.c_fm31set.specs.Entry.{CheckSettled, RunSettled};

// The number by which a set is refused when it is made, 0 if it is not. Nothing is written.
#[unsafe(no_mangle)]
pub extern "C" fn fm31_set_check(
    plan: &[u8],
    images: &[u8],
    one: &[u8],
    two: &[u8],
    three: &[u8],
    four: &[u8],
) -> u64
    ensures { CheckSettled plan.now images.now
        one.now two.now three.now four.now result }
{
    c_fm31set::entry::fm31_set_check(plan, images, one, two, three, four)
}

// The list run: refused by the first number that fits, with nothing written; or every event done on the set, the line
// after it written as its answer, and the images of the devices that the events lead to.
#[unsafe(no_mangle)]
pub extern "C" fn fm31_set_run(
    plan: &[u8],
    images: &mut [u8],
    one: &mut [u8],
    two: &mut [u8],
    three: &mut [u8],
    four: &mut [u8],
    events: &[u8],
    answers: &mut [u8],
) -> u64
    ensures { RunSettled plan.now images.old
        one.old two.old three.old four.old
        events.now answers.old result images.new
        one.new two.new three.new four.new answers.new }
{
    c_fm31set::entry::fm31_set_run(plan, images, one, two, three, four, events, answers)
}
