// SPDX-License-Identifier: Apache-2.0
// The checker. It knows nothing of the proposer: in the order of the cycles that settings add, the distance from zero
// falls and then rises, so a setting is nearest exactly if neither of its two neighbours leaves less.
ghost use Rattle.std.specs.Prelude.{◌≡◌, true, ◌↔◌};
ghost use Rattle.c_trim.specs.Residue.{in_range, Coded};
ghost use Rattle.c_trim.specs.Code.Neighbours.{further_of, opposite_of, back_of};
ghost use Rattle.c_trim.specs.Verdict.{Nearest, CheckSettled};

use crate::residue::{distance_left, in_range};
use crate::{LAST_CODE, Setting, Sign, Verdict};

// The neighbour away from no trim: one step more of the same sign. The last code has none, and gives itself.
#[tactic(auto, unfolding(crate::specs::Code::Neighbours::further_of))]
fn further(setting: Setting) -> Setting
    ensures { result ≡ further_of setting }
{
    if setting.code < LAST_CODE {
        Setting {
            code: setting.code + 1,
            ..setting
        }
    } else {
        setting
    }
}

impl Sign {
    // The other sign.
    fn opposite(self) -> Sign
        ensures { result ≡ opposite_of self }
    {
        match self {
            Sign::Plus => Sign::Minus,
            Sign::Minus => Sign::Plus,
        }
    }
}

// The neighbour on the other side: one step fewer, or from code 0 the first step of the other sign.
#[tactic(auto, unfolding(crate::specs::Code::Neighbours::back_of))]
fn back(setting: Setting) -> Setting
    ensures { result ≡ back_of setting }
{
    if setting.code == 0 {
        Setting {
            sign: setting.sign.opposite(),
            code: 1,
        }
    } else {
        Setting {
            code: setting.code - 1,
            ..setting
        }
    }
}

// Whether no setting leaves the error nearer to zero.
fn is_nearest(error: i32, setting: Setting) -> bool
    requires { (in_range error ≡ true) × Coded setting }
    ensures { (result ≡ true) ↔ Nearest error setting }
{
    let own = distance_left(error, setting);
    let further_on = distance_left(error, further(setting));
    let one_back = distance_left(error, back(setting));
    (own <= further_on) & (own <= one_back)
}

// The verdict on a setting, whoever proposed it.
pub fn check(error: i32, setting: Setting) -> Verdict
    ensures { CheckSettled error setting result }
{
    if !in_range(error) {
        return Verdict::ErrorOutOfRange;
    }
    if LAST_CODE < setting.code {
        return Verdict::CodeAbove31;
    }
    if is_nearest(error, setting) {
        Verdict::Accepted
    } else {
        Verdict::NotNearest
    }
}
