// SPDX-License-Identifier: Apache-2.0
// Laws only: where a calendar stands in its century, and how the tick takes it round. The statements are in specs/, the
// theorems in proofs/.
#![tactic(auto)]
