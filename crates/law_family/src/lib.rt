// SPDX-License-Identifier: Apache-2.0
// Laws only: the rules of the larger family once more, in numbers, on event bytes, answer bytes and register bytes. Nothing here
// runs; specs/ has the statements, proofs/ the theorems.
#![tactic(auto)]
