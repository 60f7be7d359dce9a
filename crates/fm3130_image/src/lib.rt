// SPDX-License-Identifier: Apache-2.0
// The image of a state, 64 bytes, both ways. Which images are accepted is the matter of `fm3130_accept`.
//
// places  where an image holds what
// read    the state in an image, and its parts
// write   a state's image, whole or over another's
// Stays (fixed): an image is a slice in every public function here; `[u8; 64]` is a narrower type, which asks more of callers.
#![tactic(auto)]

use fm3130::MEMORY_SIZE;

pub mod places;
pub mod read;
pub mod write;

// The bytes of an image.
pub const LENGTH: usize = 64;

// The bytes of memory, as a length.
pub const MEMORY: usize = MEMORY_SIZE as usize;
