// SPDX-License-Identifier: Apache-2.0
// Laws only: Start and Stop whatever is under way, and the ninth clock of a read. Nothing here runs; specs/ has the
// statements, proofs/ the theorems.
#![tactic(auto)]
