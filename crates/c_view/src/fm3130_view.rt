// SPDX-License-Identifier: Apache-2.0
// The viewer of the FM3130, and its number: for Rattle, and for C.
ghost use Rattle.std.specs.Prelude.{◌≡◌};
ghost use Rattle.fm3130_registers.specs.Map.{COUNT};
ghost use Rattle.fm3130.specs.Chip.{memory_size};
ghost use Rattle.c_view.specs.View.{ViewNumberSettled, ViewSettled};

use crate::chosen::{Viewed, Window};
use fm3130::MEMORY_SIZE;
use fm3130_registers::map::COUNT;

// What is seen of it: its memory, and its 15 registers.
const VIEWED: Viewed = Viewed {
    size: MEMORY_SIZE,
    count: COUNT,
};

// The viewer of the FM3130.
pub fn view<'a>(
    image: &'a [u8],
    memory: &'a [u8],
    selector: u8,
    start: usize,
    length: usize,
) -> &'a [u8]
    ensures { ViewSettled memory_size COUNT image.entry memory.entry selector start length result }
{
    let window = Window::new(u64::from(selector), start, length);
    VIEWED.view(image, memory, window)
}

// Its number on the same inputs.
// Stays (fixed): a number, as the clause ViewNumberSettled and the theorem every_view_number say it.
pub fn view_number(image: &[u8], memory: &[u8], selector: u8, start: usize, length: usize) -> u8
    ensures { ViewNumberSettled memory_size COUNT image.now memory.now selector start length result }
{
    let window = Window::new(u64::from(selector), start, length);
    VIEWED.number(image, memory, window)
}

// The same for C.
#[unsafe(no_mangle)]
pub extern "C" fn fm3130_view_number(
    image: &[u8],
    memory: &[u8],
    selector: u64,
    start: u64,
    length: u64,
) -> u64
    ensures { ViewNumberSettled memory_size COUNT image.now memory.now selector start length result }
{
    let window = Window::new(selector, start as usize, length as usize);
    u64::from(VIEWED.number(image, memory, window))
}
