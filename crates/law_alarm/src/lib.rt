// SPDX-License-Identifier: Apache-2.0
// Laws only: what a one-second tick raises, and what it leaves of the registers. Nothing here runs; specs/ has the
// statements, proofs/ the theorems.
#![tactic(auto)]
