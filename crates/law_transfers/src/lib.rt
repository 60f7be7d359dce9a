// SPDX-License-Identifier: Apache-2.0
// Laws only: what whole bytes do on the wire, on event and answer bytes. The statements are in specs/, the proofs in
// proofs/.
#![tactic(auto)]
