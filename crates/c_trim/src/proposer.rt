// SPDX-License-Identifier: Apache-2.0
// The proposer: the sign that brings the error nearer to zero, and as many steps as fit best.
ghost use Rattle.std.specs.Prelude.{◌≡◌, true, ◌≤◌, ◌<◌};
ghost use Rattle.c_trim.specs.Residue.{in_range};
ghost use Rattle.c_trim.specs.Proposal.{rounded_of, setting_for, ProposeSettled};

use crate::residue::{distance, in_range};
use crate::{LAST_CODE, Setting, Sign};

// A distance in whole steps, to the nearest, but no more than the last code. Half a step is added, and what is left of
// a step dropped.
#[tactic(auto, unfolding(crate::specs::Proposal::rounded_of))]
fn rounded(away: u64, step: u64) -> u64
    requires { (away ≤ 20000) × (0 < step) × (step ≤ 512) }
    ensures { result ≡ rounded_of step away }
{
    ((away + step / 2) / step).min(LAST_CODE)
}

// Our setting for an error in range: too few cycles are added to, too many are taken away.
fn setting_for(error: i32) -> Setting
    requires { in_range error ≡ true }
    ensures { result ≡ setting_for error }
{
    let away = distance(error);
    if error < 0 {
        Setting {
            sign: Sign::Plus,
            code: rounded(away, 512),
        }
    } else {
        Setting {
            sign: Sign::Minus,
            code: rounded(away, 256),
        }
    }
}

// Our setting, or none where the error is out of range.
pub fn propose(error: i32) -> Option<Setting>
    ensures { ProposeSettled error result }
{
    if in_range(error) {
        Some(setting_for(error))
    } else {
        None
    }
}
