// SPDX-License-Identifier: Apache-2.0
// The FM3130.
ghost use Rattle.fm3130_registers.specs.Map.{COUNT};
ghost use Rattle.fm3130.specs.Chip.{memory_size};
ghost use Rattle.c_view.specs.View.{ViewNumberSettled};

// The viewer's number.
#[unsafe(no_mangle)]
pub extern "C" fn fm3130_view_number(
    image: &[u8],
    memory: &[u8],
    selector: u64,
    start: u64,
    length: u64,
) -> u64
    ensures { ViewNumberSettled memory_size COUNT image.now memory.now selector start length result }
{
    c_view::fm3130_view::fm3130_view_number(image, memory, selector, start, length)
}
