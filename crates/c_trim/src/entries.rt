// SPDX-License-Identifier: Apache-2.0
// The checker, the residue and the proposer for C. A sign is a number there, 1 for plus and 0 for minus, as document
// 002's sign bit, and every answer is one number.
ghost use Rattle.std.specs.Prelude.{◌≡◌};
ghost use Rattle.c_trim.specs.Residue.{Coded};
ghost use Rattle.c_trim.specs.Entries.{setting_of, verdict_number, residue_shown, setting_number};
ghost use Rattle.c_trim.specs.Entries.{CheckNumberSettled, ResidueSettled, ProposeNumberSettled};

use crate::checker::check;
use crate::proposer::propose;
use crate::residue::{in_range, residue};
use crate::{LAST_CODE, Setting, Sign, UnknownSign, Verdict};

// The checker's number where the sign is neither plus nor minus: such numbers name no setting, so it is tested first.
const UNKNOWN_SIGN: u64 = 2;

// The proposer's number where it refuses: one more than the greatest setting.
const REFUSED: u64 = 64;

// The setting that a sign and a code name.
#[tactic(auto, unfolding(crate::specs::Entries::setting_of))]
fn setting_of(sign: u64, code: u64) -> Result<Setting, UnknownSign>
    ensures { result ≡ setting_of sign code }
{
    let sign = Sign::try_from(sign)?;
    Ok(Setting { sign, code })
}

impl Verdict {
    // Its number.
    fn number(self) -> u64
        ensures { result ≡ verdict_number self }
    {
        self as u64
    }
}

// The verdict on a setting by its number.
#[unsafe(no_mangle)]
pub extern "C" fn fm3130_trim_check(error: i32, sign: u64, code: u64) -> u64
    ensures { CheckNumberSettled error sign code result }
{
    match setting_of(sign, code) {
        Ok(setting) => check(error, setting).number(),
        Err(UnknownSign) => UNKNOWN_SIGN,
    }
}

// What a setting leaves of an error, or 0 where the checker refuses one of the two.
fn residue_shown(error: i32, setting: Setting) -> i32
    ensures { result ≡ residue_shown error setting }
{
    if in_range(error) && setting.code <= LAST_CODE {
        residue(error, setting)
    } else {
        0
    }
}

// What a setting leaves of an error, or 0 where the checker's number is a refusal.
#[unsafe(no_mangle)]
pub extern "C" fn fm3130_trim_residue(error: i32, sign: u64, code: u64) -> i32
    ensures { ResidueSettled error sign code result }
{
    match setting_of(sign, code) {
        Ok(setting) => residue_shown(error, setting),
        Err(UnknownSign) => 0,
    }
}

impl Setting {
    // A setting as document 002's control register holds it: the sign bit, then the five bits of the code.
    fn number(self) -> u64
        requires { Coded self }
        ensures { result ≡ setting_number self }
    {
        32 * (self.sign as u64) + self.code
    }
}

// Our setting for an error, as the control register holds it, or 64 where the error is out of range.
#[unsafe(no_mangle)]
pub extern "C" fn fm3130_trim_propose(error: i32) -> u64
    ensures { ProposeNumberSettled error result }
{
    match propose(error) {
        Some(setting) => setting.number(),
        None => REFUSED,
    }
}
