// SPDX-License-Identifier: Apache-2.0
// Laws only: what holds of the larger family at both sizes, of lists of events and of the entries. The statements are in
// specs/, the proofs in proofs/.
#![tactic(auto)]
