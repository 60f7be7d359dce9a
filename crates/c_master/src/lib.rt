// SPDX-License-Identifier: Apache-2.0
// The other end of the wire: a master's whole transactions with the memory, and what the answers to them say. A caller
// gives addresses and bytes and needs to know no clock.
//
// refusals  the master's own refusals, and how many events its transactions have
// events   the events of a write and of a read
// told     what the answers to them say
#![tactic(auto)]

ghost use Rattle.std.specs.Prelude.{◌≡◌};
ghost use Rattle.c_master.specs.Refusal.{filled_told};

use refusals::{ACCEPTED, Refusal};

pub mod events;
pub mod refusals;
pub mod told;

// What an entry returns: the number, and how many bytes at the front of the lent buffer it wrote.
// Stays (C): the four entries hand a host program these two words; inside it is a Result, below.
#[repr(C)]
#[derive(Clone, Copy)]
pub struct Filled {
    pub number: u64,
    pub count: u64,
}

// As a host program is told it, of the count or the refusal.
impl From<Result<usize, Refusal>> for Filled {
    ghost from_gives = { λ outcome filled. filled ≡ filled_told outcome };

    fn from(outcome: Result<usize, Refusal>) -> Filled {
        match outcome {
            Ok(count) => Filled {
                number: ACCEPTED,
                count: count as u64,
            },
            Err(refusal) => Filled {
                number: u64::from(refusal),
                count: 0,
            },
        }
    }
}
