// SPDX-License-Identifier: Apache-2.0
// Trim settings of the other maker's clock (document 002): what a setting leaves of a measured error, a checker of
// whatever any program proposes, and a proposer of ours.
//
// residue   the error's range, what a setting leaves of an error, and how far from zero that is
// checker   whether no setting leaves less; the verdict
// proposer  our setting for an error, in closed form
// entries   the three of them for C
#![tactic(auto)]

ghost use Rattle.c_trim.specs.Entries.{SignOf};

pub mod checker;
pub mod entries;
pub mod proposer;
mod residue;

// The greatest code of a setting.
pub const LAST_CODE: u64 = 31;

// Plus adds 512 cycles a step, minus takes 256 away. Its number is document 002's sign bit.
#[derive(Clone, Copy, Debug, PartialEq, Eq)]
pub enum Sign {
    Plus = 1,
    Minus = 0,
}

// A number that is no sign's.
#[derive(Clone, Copy, Debug, PartialEq, Eq)]
pub struct UnknownSign;

impl TryFrom<u64> for Sign {
    type Error = UnknownSign;

    ghost try_from_gives = { SignOf };

    fn try_from(number: u64) -> Result<Self, UnknownSign> {
        match number {
            1 => Ok(Sign::Plus),
            0 => Ok(Sign::Minus),
            _ => Err(UnknownSign),
        }
    }
}

// A sign, and a code that says how many steps. What a program proposes may have any code, so that it is judged whole
// and not cut first.
#[derive(Clone, Copy, Debug, PartialEq, Eq)]
pub struct Setting {
    pub sign: Sign,
    pub code: u64,
}

// What the checker says of a setting: accepted; another one leaves a smaller distance from zero; or refused, and why. C is
// told its number; 2 is left for a sign that is none.
// Stays (plain): four verdicts, each with a number of its own; of a `Result<bool, ..>` two would have no name.
#[derive(Clone, Copy, Debug, PartialEq, Eq)]
pub enum Verdict {
    Accepted = 0,
    NotNearest = 1,
    ErrorOutOfRange = 3,
    CodeAbove31 = 4,
}
