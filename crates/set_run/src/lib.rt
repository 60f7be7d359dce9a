// SPDX-License-Identifier: Apache-2.0
// A list of events on a set of up to four devices of the larger family.
#![tactic(auto)]

pub mod run;
