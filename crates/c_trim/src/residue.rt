// SPDX-License-Identifier: Apache-2.0
// The error's range, what a setting leaves of an error, and how far from zero that is.
ghost use Rattle.std.specs.Prelude.{◌≡◌, true, ◌*◌, ◌^◌, ◌≤◌, ◌<◌, pos};
ghost use Rattle.c_trim.specs.Residue.{in_range, last_code, Coded, residue_of, distance_of, distance_left};

use crate::{Setting, Sign};

// Whether an error is from -20,000 to 20,000.
pub(crate) fn in_range(error: i32) -> bool
    ensures { result ≡ in_range error }
{
    (-20000..=20000).contains(&error)
}

// So many steps of so many cycles each.
fn cycles(steps: u64, each: u64) -> i32
    requires { (steps ≤ last_code) × (each ≤ 512) }
    ensures { result ≡ pos (each * steps) }
{
    (each * steps) as i32
}

// What a setting leaves of an error: its steps added or taken away.
pub(crate) fn residue(error: i32, setting: Setting) -> i32
    requires { (in_range error ≡ true) × Coded setting }
    ensures { result ≡ residue_of error setting }
{
    match setting.sign {
        Sign::Plus => error + cycles(setting.code, 512),
        Sign::Minus => error - cycles(setting.code, 256),
    }
}

// How far a number is from zero: a negative one's distance is its negation. (The least i32 has none.)
// Stays (fixed): "distance from zero by negation" is a form that is asked for by name.
pub(crate) fn distance(number: i32) -> u64
    requires { distance_of number < 2 ^ 31 }
    ensures { result ≡ distance_of number }
{
    if number < 0 {
        (-number) as u64
    } else {
        number as u64
    }
}

// How far from zero a setting leaves an error.
pub(crate) fn distance_left(error: i32, setting: Setting) -> u64
    requires { (in_range error ≡ true) × Coded setting }
    ensures { result ≡ distance_left error setting }
{
    distance(residue(error, setting))
}
