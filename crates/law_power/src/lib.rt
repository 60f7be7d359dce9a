// SPDX-License-Identifier: Apache-2.0
// Laws only: what the supplies' coming and going leaves of every state, byte by byte. Nothing here runs; specs/ has the
// statements, proofs/ the theorems.
#![tactic(auto)]
