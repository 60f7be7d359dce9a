// SPDX-License-Identifier: Apache-2.0
// Laws only: demand 3 of waveforms. The statement is in specs/, the theorem in proofs/.
#![tactic(auto)]
