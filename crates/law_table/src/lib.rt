// SPDX-License-Identifier: Apache-2.0
// Laws only: the table K1 to K12 as one statement, and that an acknowledged memory byte is stored and a protected one never
// changes. Nothing here runs; specs/ has the statements, proofs/ the theorems.
#![tactic(auto)]
