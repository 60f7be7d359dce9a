// SPDX-License-Identifier: Apache-2.0
// Laws only: what is done with one of a part's two devices does not touch the other, over any part. The statements are in
// specs/, the theorems in proofs/.
#![tactic(auto)]
