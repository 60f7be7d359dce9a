// SPDX-License-Identifier: Apache-2.0
// An old image put right: registers 02h to 08h and the core, with the list of the registers that were changed. An entry of
// its own and an object of its own: a host that calls it links nothing of the list run.
//
//   changes.rt  the list of what was changed, and its count
//   lib.rt      the state put right, and the entry
#![tactic(auto)]

ghost use Rattle.std.specs.Prelude.{◌≡◌};
ghost use Rattle.c_mend.specs.Mend.{mended_companion, mended_state, time_bytes, mended_told, MendSettled};

mod changes;

use crate::changes::{count_changes, write_changes};
use calendar::Calendar;
use fm3130::State;
use fm3130_accept::decode;
use fm3130_companion::{Companion, Registers};
use fm3130_image::write::write_image;
use numbers::{ACCEPTED, Refusal};

// The bytes that are listed of a register: its number, the old byte, the new byte.
pub const LISTED: usize = 3;

// What the entry returns: the number of 01's table, and how many registers were changed.
// Stays (C): fm3130_mend hands a host these two words; inside it is a Result, below.
#[repr(C)]
#[derive(Clone, Copy)]
pub struct Mended {
    pub number: u64,
    pub count: u64,
}

// As a host program is told it, of the count or the refusal.
impl From<Result<u64, Refusal>> for Mended {
    ghost from_gives = { λ outcome mended. mended ≡ mended_told outcome };

    fn from(outcome: Result<u64, Refusal>) -> Mended {
        match outcome {
            Ok(count) => Mended {
                number: u64::from(ACCEPTED),
                count,
            },
            Err(refusal) => Mended {
                number: u64::from(refusal),
                count: 0,
            },
        }
    }
}

// The companion with its calendar registers and its core put right, each by itself.
fn mended_companion(companion: Companion) -> Companion
    ensures { result ≡ mended_companion companion }
{
    let registers = companion.registers;
    Companion {
        registers: Registers {
            time: registers.time.mended(),
            ..registers
        },
        core: companion.core.mended(),
        ..companion
    }
}

// The state with its companion put right, and all else as it was.
fn mended_state(state: State) -> State
    ensures { result ≡ mended_state state }
{
    State {
        companion: mended_companion(state.companion),
        ..state
    }
}

// Registers 02h to 08h of a state.
fn time_bytes(state: State) -> [u8; 7]
    ensures { result ≡ time_bytes state }
{
    let Calendar {
        seconds,
        minutes,
        hours,
        day,
        date,
        month,
        year,
    } = state.companion.registers.time;
    [seconds, minutes, hours, day, date, month, year]
}

// The tests in the order of their numbers, with nothing written before the last; and how many registers were changed.
fn mend(image: &mut [u8], changes: &mut [u8]) -> Result<u64, Refusal>
    ensures { MendSettled image.old changes.old (mended_told result)
        image.new changes.new }
{
    let state = decode(image).ok_or(Refusal::WrongState)?;
    let mended = mended_state(state);
    let before = time_bytes(state);
    let after = time_bytes(mended);
    let count = count_changes(&before, &after);
    if changes.len() < LISTED * count {
        return Err(Refusal::ShortAnswers);
    }
    write_changes(&before, &after, changes);
    write_image(mended, image);
    Ok(count as u64)
}

// Puts an image right: refused by the first number that fits, with nothing written; or the image written, and the list at
// the front of the lent bytes.
#[unsafe(no_mangle)]
pub extern "C" fn fm3130_mend(image: &mut [u8], changes: &mut [u8]) -> Mended
    ensures { MendSettled image.old changes.old result
        image.new changes.new }
{
    Mended::from(mend(image, changes))
}
