// SPDX-License-Identifier: Apache-2.0
// Laws only: what a master can see of the registers, on event and answer bytes: a read with ticks between its clocks, each
// register written and read back, the clock set. The statements are in specs/, the proofs in proofs/.
#![tactic(auto)]
