// SPDX-License-Identifier: Apache-2.0
// Catching up after sleep, for a host program: many ticks on a state's image in one call. An entry of its own and an object
// of its own: a host that never sleeps links nothing of it.
//
//   search.rt   whether one of many seconds rings the alarm
//   ticks.rt    what many ticks leave of 00h and of a valid core, by value
//   bytes.rt    many ticks on an image: no byte is written but those that ticks change
//   lib.rt      the entry
#![tactic(auto)]

ghost use Rattle.std.specs.Prelude.{◌≡◌};
ghost use Rattle.numbers.specs.Refusal.{number_told};
ghost use Rattle.c_catch_up.specs.CatchUp.{CatchUpSettled};

use crate::bytes::count;
use bits::has;
use bus_image::phases::POWER_BACKUP;
use bus_image::places::SUPPLIES_AT;
use fm3130_accept::is_image;
use fm3130_image::places::TRIM_AT;
use fm3130_registers::map::OSCEN;
use numbers::{Refusal, number_told};

mod bytes;
mod search;
mod ticks;

// The ticks of a leap year.
pub const MOST_TICKS: u64 = 31622400;

// Catches up: refused by the first number that fits, with nothing written; or the image of the state that so many ticks
// lead to, one by one. No tick changes nothing, and neither do ticks without a supply or while the oscillator is off.
#[tactic(auto, using(crate::proofs::Ways::ways))]
fn catch_up(image: &mut [u8], ticks: u64) -> Result<(), Refusal>
    ensures { CatchUpSettled image.old ticks (number_told result) image.new }
{
    if !is_image(image) {
        return Err(Refusal::WrongState);
    }
    if MOST_TICKS < ticks {
        return Err(Refusal::TooManyTicks);
    }
    if ticks == 0 || POWER_BACKUP < image[SUPPLIES_AT] || has(image[TRIM_AT], OSCEN) {
        return Ok(());
    }
    count(image, ticks as u32);
    Ok(())
}

// The same for C, which is told the number of the refusal, or 0.
#[unsafe(no_mangle)]
pub extern "C" fn fm3130_catch_up(image: &mut [u8], ticks: u64) -> u64
    ensures { CatchUpSettled image.old ticks result image.new }
{
    number_told(catch_up(image, ticks))
}
