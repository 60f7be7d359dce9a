// SPDX-License-Identifier: Apache-2.0
// Laws only, over any size of memory and any companion: an acknowledged memory byte is stored, a protected address never
// changes, and demand 3, all on event and answer bytes. The statements are in specs/, the proofs in proofs/.
#![tactic(auto)]
