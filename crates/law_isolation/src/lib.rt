// SPDX-License-Identifier: Apache-2.0
// Laws only: demand 3 for the FM3130, over the laws of `law_merging`. The statements are in specs/, the theorems in proofs/.
#![tactic(auto)]
