// SPDX-License-Identifier: Apache-2.0
// The viewer's number for C, of each part: what `c_view` says, by the same clauses.
#![tactic(auto)]

pub mod fm3130_view;
pub mod sizes;
