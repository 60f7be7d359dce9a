// SPDX-License-Identifier: Apache-2.0
// What a host program calls for a set of up to four devices of the larger family on one line. A set comes as a plan, one
// byte a device, the devices' images one after the other, and the memory of each in a buffer of its own.
//
// entry   whether a set can be made, and the list run, for C
#![tactic(auto)]

pub mod entry;
