// SPDX-License-Identifier: Apache-2.0
// The device where it lies, in its image: an event changes the bytes that it must and no others. Nothing is read out of
// the image to be written back.
// Stays (fixed): the lent buffers are slices in every public function here, and arrays would ask more of callers; `Accepted` says
// both lengths once.
#![tactic(auto)]

use calendar::Rolled;

pub mod event;

// What an event tells: its answer byte, and the highest field of the calendar that changed.
#[derive(Clone, Copy)]
pub struct Told {
    pub answer: u8,
    pub rolled: Rolled,
}
