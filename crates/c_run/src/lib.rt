// SPDX-License-Identifier: Apache-2.0
// What a host program calls: a list of events on a state's image and the lent buffers, and the fresh image (`run`).
#![tactic(auto)]

ghost use Rattle.std.specs.Prelude.{◌≡◌};
ghost use Rattle.c_run.specs.Run.{ran_told};

use numbers::{ACCEPTED, Refusal};

pub mod run;

// What the list run returns: the number of 01's table, and how many events were done.
// Stays (C): fm3130_run hands a host these two words; inside it is a Result, below.
#[repr(C)]
#[derive(Clone, Copy)]
pub struct Ran {
    pub number: u64,
    pub count: u64,
}

// As a host program is told it, of the count or the refusal.
impl From<Result<u64, Refusal>> for Ran {
    ghost from_gives = { λ outcome ran. ran ≡ ran_told outcome };

    fn from(outcome: Result<u64, Refusal>) -> Ran {
        match outcome {
            Ok(count) => Ran {
                number: u64::from(ACCEPTED),
                count,
            },
            Err(refusal) => Ran {
                number: u64::from(refusal),
                count: 0,
            },
        }
    }
}
