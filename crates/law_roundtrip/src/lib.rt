// SPDX-License-Identifier: Apache-2.0
// Laws only: what a master's transactions do on a device, and the round trip. The statements are in specs/, the proofs in
// proofs/.
#![tactic(auto)]
