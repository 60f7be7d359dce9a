// SPDX-License-Identifier: Apache-2.0
// Laws only: several devices of the larger family on one line, once more in numbers: which event bytes each device hears, the line,
// the plan and the images in their order. Nothing here runs; specs/ has the statements, proofs/ the theorems.
#![tactic(auto)]
