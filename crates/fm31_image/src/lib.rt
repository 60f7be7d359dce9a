// SPDX-License-Identifier: Apache-2.0
// The image of a device of the larger family: a state's 64 bytes, and the state that writes them.
#![tactic(auto)]

pub mod accept;
pub mod image;
pub mod places;
