// SPDX-License-Identifier: Apache-2.0
// An event on a device of the larger family where it lies, in its image: the bus is a value of ten bytes, the companion is
// touched only where the event asks it for something.
//
// room    the companion does what it is asked, in its bytes
// event   one event, with its answer byte
#![tactic(auto)]

pub mod event;
mod room;
