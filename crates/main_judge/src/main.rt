// SPDX-License-Identifier: Apache-2.0
// The judge as a program: a capture on standard input, the verdict in one line on standard output:
//
//   all agree: 11 answers
//   answer 3 differs: recorded 05, right 04      (answers are counted from 0)
//   entry 2 is faulty                            (entries are counted from 1)
//   too long
#![tactic(auto)]

use c_judge::Verdict;
use c_judge::judge::judge;
use std::io::Read;
use std::{fmt, io};

// One byte more than the longest capture, to know that there are more.
const ROOM: usize = 61441;

// A verdict as a line of text.
#[derive(Clone, Copy)]
struct Said(Verdict);

impl fmt::Display for Said {
    fn fmt<W: fmt::Write>(&self, f: &mut fmt::Formatter<W>) -> fmt::Result {
        match self.0 {
            Verdict::Agree(count) => write!(f, "all agree: {count} answers"),
            Verdict::Differs {
                place,
                recorded,
                right,
            } => write!(
                f,
                "answer {place} differs: recorded {recorded:02x}, right {right:02x}"
            ),
            Verdict::Faulty(entry) => write!(f, "entry {entry} is faulty"),
            Verdict::TooLong => f.write_str("too long"),
        }
    }
}

fn main(rt: HostRuntime) -> io::Result<()> {
    // Stays (fixed): an array and no Vec, here and in the other programs: none rests on the heap.
    let mut capture = [0; ROOM];
    let count = io::copy(&mut rt.reader().take(ROOM as u64), &mut &mut capture[..])?;
    println!(rt; "{}", Said(judge(&capture[..ROOM.min(count as usize)])))
}
