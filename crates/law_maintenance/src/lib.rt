// SPDX-License-Identifier: Apache-2.0
// Laws only: what maintenance may rely on when it reads the lamps. The statements are in specs/, the proofs in proofs/.
#![tactic(auto)]
