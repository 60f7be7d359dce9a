// SPDX-License-Identifier: Apache-2.0
// Trim settings for C: what `c_trim` says, by the same clauses.
#![tactic(auto)]

ghost use Rattle.c_trim.specs.Entries.{CheckNumberSettled, ResidueSettled, ProposeNumberSettled};

// The verdict on a setting by its number.
#[unsafe(no_mangle)]
pub extern "C" fn fm3130_trim_check(error: i32, sign: u64, code: u64) -> u64
    ensures { CheckNumberSettled error sign code result }
{
    c_trim::entries::fm3130_trim_check(error, sign, code)
}

// What a setting leaves of an error, or 0 where the checker's number is a refusal.
#[unsafe(no_mangle)]
pub extern "C" fn fm3130_trim_residue(error: i32, sign: u64, code: u64) -> i32
    ensures { ResidueSettled error sign code result }
{
    c_trim::entries::fm3130_trim_residue(error, sign, code)
}

// Our setting for an error, as the control register holds it, or 64 where the error is out of range.
#[unsafe(no_mangle)]
pub extern "C" fn fm3130_trim_propose(error: i32) -> u64
    ensures { ProposeNumberSettled error result }
{
    c_trim::entries::fm3130_trim_propose(error)
}
