// SPDX-License-Identifier: Apache-2.0
// Many ticks in one call for C: what `c_catch_up` does, by the same clauses.
#![tactic(auto)]

ghost use Rattle.c_catch_up.specs.CatchUp.{CatchUpSettled};

// Catches up: refused by the first number that fits, with nothing written; or the image of the state that so many ticks
// lead to, one by one. No tick changes nothing, and neither do ticks without a supply or while the oscillator is off.
#[unsafe(no_mangle)]
pub extern "C" fn fm3130_catch_up(image: &mut [u8], ticks: u64) -> u64
    ensures { CatchUpSettled image.old ticks result image.new }
{
    c_catch_up::fm3130_catch_up(image, ticks)
}
