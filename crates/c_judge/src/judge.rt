// SPDX-License-Identifier: Apache-2.0
// The verdict on a capture: its length and its table first, then the recorded events.
ghost use Rattle.std.specs.Prelude.{◌≡◌};
ghost use Rattle.capture_table.specs.Sections.{first_faulty};
ghost use Rattle.c_judge.specs.Verdict.{figures_of, verdict_on, JudgeSettled, JudgeForCSettled};

use crate::replay::replay;
use crate::{Figures, Judgement, Verdict};
use bus_image::bytes::copy;
use capture_table::Kind;
use capture_table::faults::first_faulty;
use capture_table::sections::{entry_of, section};
use fm3130_image::{LENGTH, MEMORY};

// The bytes of the longest capture: 60 KiB.
const LIMIT: usize = 61440;

// The verdict on a capture. The file is only read; the events change copies of its image and its memory.
pub fn judge(file: &[u8]) -> Verdict
    ensures { JudgeSettled file.now result }
{
    if LIMIT < file.len() {
        return Verdict::TooLong;
    }
    match first_faulty(file) {
        Some(entry) => Verdict::Faulty(entry),
        None => judge_sound(file),
    }
}

// The verdict on a capture whose four entries are sound.
fn judge_sound(file: &[u8]) -> Verdict
    requires { first_faulty file.now ≡ None }
    ensures { result ≡ verdict_on file.now None }
{
    let events = entry_of(file, Kind::Events as u32).from as usize;
    let answers = section(file, Kind::Answers);
    let mut image = [0; LENGTH];
    copy(section(file, Kind::Image), &mut image);
    let mut memory = [0; MEMORY];
    copy(section(file, Kind::Memory), &mut memory);
    replay(&mut image, &mut memory, file, events, answers)
}

// A verdict's number and values.
impl From<Verdict> for Figures {
    ghost from_gives = { λ v r. r ≡ figures_of v };

    fn from(verdict: Verdict) -> Figures {
        match verdict {
            Verdict::Agree(count) => Figures {
                number: 0,
                place: count as u64,
                recorded: 0,
                right: 0,
            },
            Verdict::Differs {
                place,
                recorded,
                right,
            } => Figures {
                number: 1,
                place: place as u64,
                recorded,
                right,
            },
            Verdict::Faulty(entry) => Figures {
                number: 2,
                place: u64::from(entry),
                recorded: 0,
                right: 0,
            },
            Verdict::TooLong => Figures {
                number: 3,
                place: 0,
                recorded: 0,
                right: 0,
            },
        }
    }
}

// The verdict for C, as its number and place. The file is only read.
#[unsafe(no_mangle)]
pub extern "C" fn fm3130_judge(file: &[u8]) -> Judgement
    ensures { JudgeForCSettled file.now result }
{
    let Figures { number, place, .. } = Figures::from(judge(file));
    Judgement { number, place }
}
