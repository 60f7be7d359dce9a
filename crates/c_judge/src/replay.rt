// SPDX-License-Identifier: Apache-2.0
// The recorded events, run in stretches beside the recorded answers. A stretch is read through a reader, run on the image
// where it lies, and its answers are held against the recorded ones.
ghost use Rattle.std.specs.Prelude.{◌≡◌, true, ◌+◌, ◌≤◌, ◌<◌, ◌^◌, length, take, drop};
ghost use Rattle.fm3130_image.specs.Image.{candidate};
ghost use Rattle.place_clock.specs.Code.Clocking.{Accepted};
ghost use Rattle.fm3130_list.specs.Run.{run_of, all_known};
ghost use Rattle.c_judge.specs.Verdict.{compared};
ghost use Rattle.c_judge.specs.Code.Stretch.{longest, is_agreed, Judged};

use crate::Verdict;
use c_run::run::run_events;
use capture_reader::taken_through;

// The events of the longest stretch: so many answers are kept at a time.
const LONGEST: usize = 256;

// Bytes of the file from a place on, one by one through a reader, as many as there is room for.
fn fetch(file: &[u8], place: usize, bytes: &mut [u8])
    requires { place + length bytes.old ≤ length file.now }
    ensures { bytes.new ≡ take (length bytes.old) (drop place file.now) }
{
    let mut at = place;
    for byte in bytes.iter_mut() {
        let taken = taken_through(file, at);
        *byte = taken.byte;
        at = taken.place;
    }
}

// Recorded answers beside the right ones, counted from a place on: the first that differs, or how many agree.
fn beside(recorded: &[u8], right: &[u8], from: usize) -> Verdict
    requires recorded_in_bounds { length recorded.now ≤ length right.now }
    requires recorded_bound { from + length recorded.now < 2 ^ 64 }
    ensures { result ≡ compared from right.now recorded.now }
{
    for i in 0..recorded.len() {
        if recorded[i] != right[i] {
            return Verdict::Differs {
                place: from + i,
                recorded: recorded[i],
                right: right[i],
            };
        }
    }
    Verdict::Agree(from + recorded.len())
}

// As many events from a place of the file on as there is room for, beside their recorded answers; so many came before.
fn stretch(
    image: &mut [u8],
    memory: &mut [u8],
    file: &[u8],
    events: usize,
    recorded: &[u8],
    before: usize,
    asked: &mut [u8],
    given: &mut [u8],
) -> Verdict
    requires accepted { Accepted image.old memory.old }
    requires asked_in_bounds { (events + length asked.old ≤ length file.now) × (length asked.old ≡ length recorded.now)
        × (length given.old ≡ length asked.old) × (before + length asked.old < 2 ^ 64) }
    requires events_known { all_known (take (length asked.old) (drop events file.now)) ≡ true }
    ensures { Judged (candidate image.old) memory.old
        (take (length asked.old) (drop events file.now)) recorded.now before
        result image.new memory.new }
{
    fetch(file, events, asked);
    run_events(image, memory, asked, given);
    beside(recorded, given, before)
}

// The same with room of its own, for as many as the answers.
fn with_room(
    image: &mut [u8],
    memory: &mut [u8],
    file: &[u8],
    events: usize,
    recorded: &[u8],
    before: usize,
) -> Verdict
    requires accepted { Accepted image.old memory.old }
    requires long_in_bounds { (events + length recorded.now ≤ length file.now) × (length recorded.now ≤ longest)
        × (before + length recorded.now < 2 ^ 64) }
    requires events_known { all_known (take (length recorded.now) (drop events file.now)) ≡ true }
    ensures { Judged (candidate image.old) memory.old
        (take (length recorded.now) (drop events file.now)) recorded.now before
        result image.new memory.new }
{
    let mut asked = [0u8; LONGEST];
    let mut given = [0u8; LONGEST];
    stretch(
        image,
        memory,
        file,
        events,
        recorded,
        before,
        &mut asked[..recorded.len()],
        &mut given[..recorded.len()],
    )
}

impl Verdict {
    // Whether it says that all agree.
    fn agrees(self) -> bool
        ensures { result ≡ is_agreed self }
    {
        matches!(self, Verdict::Agree(_))
    }
}

// Answers beside as many events from a place of the file on: the first answer that is not the device's. The events change the
// image and the memory that are handed in.
pub(crate) fn replay(
    image: &mut [u8],
    memory: &mut [u8],
    file: &[u8],
    events: usize,
    answers: &[u8],
) -> Verdict
    requires accepted { Accepted image.old memory.old }
    requires count_in_bounds { events + length answers.now ≤ length file.now }
    requires events_known { all_known (take (length answers.now) (drop events file.now)) ≡ true }
    ensures { result ≡ compared 0
        (run_of (candidate image.old) memory.old (take (length answers.now) (drop events file.now))).answers answers.now }
{
    // Stays (plain): two lists go on by stretches together, and how many came before is a part of the verdict.
    let mut i = 0;
    let mut rest = answers;
    while !rest.is_empty() {
        let (recorded, later) = rest.split_at(LONGEST.min(rest.len()));
        let told = with_room(image, memory, file, events + i, recorded, i);
        if !told.agrees() {
            return told;
        }
        i += recorded.len();
        rest = later;
    }
    Verdict::Agree(i)
}
