// SPDX-License-Identifier: Apache-2.0
// The viewer of each size of the larger family, for Rattle, and its number, for C.
ghost use Rattle.std.specs.Prelude.{◌≡◌};
ghost use Rattle.fm31_counters.specs.Map.{COUNT};
ghost use Rattle.fm31.specs.Chip.{size_of};
ghost use Rattle.fm31.specs.declared.Size.TheVariants.{Kb64, Kb256};
ghost use Rattle.c_view.specs.View.{ViewNumberSettled, ViewSettled};

use crate::chosen::{Viewed, Window};
use fm31::{KB64, KB256};
use fm31_counters::map::COUNT;

// What is seen of each: its memory, and the same 16 registers.
const VIEWED_64KB: Viewed = Viewed {
    size: KB64,
    count: COUNT,
};

const VIEWED_256KB: Viewed = Viewed {
    size: KB256,
    count: COUNT,
};

// The viewer of the 64Kb part.
pub fn view_64kb<'a>(
    image: &'a [u8],
    memory: &'a [u8],
    selector: u8,
    start: usize,
    length: usize,
) -> &'a [u8]
    ensures { ViewSettled (size_of Kb64) COUNT image.entry memory.entry selector start length result }
{
    let window = Window::new(u64::from(selector), start, length);
    VIEWED_64KB.view(image, memory, window)
}

// The viewer of the 256Kb part.
pub fn view_256kb<'a>(
    image: &'a [u8],
    memory: &'a [u8],
    selector: u8,
    start: usize,
    length: usize,
) -> &'a [u8]
    ensures { ViewSettled (size_of Kb256) COUNT image.entry memory.entry selector start length result }
{
    let window = Window::new(u64::from(selector), start, length);
    VIEWED_256KB.view(image, memory, window)
}

// The viewer's number for C, of the 64Kb part.
#[unsafe(no_mangle)]
pub extern "C" fn fm3164_view_number(
    image: &[u8],
    memory: &[u8],
    selector: u64,
    start: u64,
    length: u64,
) -> u64
    ensures { ViewNumberSettled (size_of Kb64) COUNT image.now memory.now selector start length result }
{
    let window = Window::new(selector, start as usize, length as usize);
    u64::from(VIEWED_64KB.number(image, memory, window))
}

// The viewer's number for C, of the 256Kb part.
#[unsafe(no_mangle)]
pub extern "C" fn fm31256_view_number(
    image: &[u8],
    memory: &[u8],
    selector: u64,
    start: u64,
    length: u64,
) -> u64
    ensures { ViewNumberSettled (size_of Kb256) COUNT image.now memory.now selector start length result }
{
    let window = Window::new(selector, start as usize, length as usize);
    u64::from(VIEWED_256KB.number(image, memory, window))
}
