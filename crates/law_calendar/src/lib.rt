// SPDX-License-Identifier: Apache-2.0
// Laws only: a calendar put right, by its bytes: each field by itself, and the date of each month. The statements are in specs/,
// the proofs in proofs/.
#![tactic(auto)]
