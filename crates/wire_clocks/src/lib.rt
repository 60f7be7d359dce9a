// SPDX-License-Identifier: Apache-2.0
// The events of whole bytes and of a master's whole transactions with the memory, free of any device: as lists in specs/, and
// laid into a lent buffer.
//
// lay   events laid one after another
#![tactic(auto)]

pub mod lay;
