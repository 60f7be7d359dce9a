// SPDX-License-Identifier: Apache-2.0
// The larger family, in its two sizes.
ghost use Rattle.fm31_counters.specs.Map.{COUNT};
ghost use Rattle.fm31.specs.Chip.{size_of};
ghost use Rattle.fm31.specs.declared.Size.TheVariants.{Kb64, Kb256};
ghost use Rattle.c_view.specs.View.{ViewNumberSettled};

// The viewer's number for C, of the 64Kb part.
#[unsafe(no_mangle)]
pub extern "C" fn fm3164_view_number(
    image: &[u8],
    memory: &[u8],
    selector: u64,
    start: u64,
    length: u64,
) -> u64
    ensures { ViewNumberSettled (size_of Kb64) COUNT image.now memory.now selector start length result }
{
    c_view::sizes::fm3164_view_number(image, memory, selector, start, length)
}

// The viewer's number for C, of the 256Kb part.
#[unsafe(no_mangle)]
pub extern "C" fn fm31256_view_number(
    image: &[u8],
    memory: &[u8],
    selector: u64,
    start: u64,
    length: u64,
) -> u64
    ensures { ViewNumberSettled (size_of Kb256) COUNT image.now memory.now selector start length result }
{
    c_view::sizes::fm31256_view_number(image, memory, selector, start, length)
}
