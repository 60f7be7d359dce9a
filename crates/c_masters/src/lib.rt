// SPDX-License-Identifier: Apache-2.0
// Two masters on one bus: an ask for the bus, and a master's call of the list run. Who holds the bus (crate `masters_hold`) is one byte
// beside the image, which the host keeps and lends; so the image's layout stays, and the list run knows nothing of masters.
//
// entries  the ask and the call, for a host program
#![tactic(auto)]

pub mod entries;
