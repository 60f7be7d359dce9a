// SPDX-License-Identifier: Apache-2.0
// The list run with the proving record, for C. The record lies in a buffer of the caller's, as the image does, so this
// program keeps nothing between calls; its bytes are the matter of `lamps_bytes`.
//
// row   where the next part of a list ends, and the byte under way after the Clocks of one
// run   a part of a list, the whole list, and the entry for C
#![tactic(auto)]

use fm3130::State;
use lamps::Proving;

mod row;
pub mod run;

// What a list of events leads to.
#[derive(Clone, Copy)]
pub struct Reached {
    pub state: State,
    pub proving: Proving,
}

// What the list run with the record returns: the number of 01's table, and the report, bit k for lamp k. The count of the
// plain list run is left out: it is the number of events, or 0 where the call is refused.
#[repr(C)]
#[derive(Clone, Copy)]
pub struct Shown {
    pub number: u64,
    pub report: u64,
}
