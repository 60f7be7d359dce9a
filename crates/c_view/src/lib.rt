// SPDX-License-Identifier: Apache-2.0
// The viewer of each part: a part of one of two lent slices, never a copy, and its number on the same inputs.
//
// chosen        the viewer over the size of the memory and the number of registers
// fm3130_view   the FM3130's
// sizes         those of each size of the larger family
#![tactic(auto)]

mod chosen;
pub mod fm3130_view;
pub mod sizes;
