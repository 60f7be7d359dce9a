// SPDX-License-Identifier: Apache-2.0
// Laws only: two masters on one bus. What a master's read may rely on, whatever the other did before; what it may not; and
// demand 3 of both masters' lists. The statements are in specs/, the theorems in proofs/.
#![tactic(auto)]
