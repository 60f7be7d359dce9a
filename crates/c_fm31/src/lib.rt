// SPDX-License-Identifier: Apache-2.0
// What a host program calls for the larger family: a list of events and one event on a state's image and the lent
// buffers, and the fresh image; for each size a function of its own over one that takes the size.
//
// run    the list run, and the fresh image
// step   one event
#![tactic(auto)]

pub mod run;
pub mod step;
