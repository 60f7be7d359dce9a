// SPDX-License-Identifier: Apache-2.0
// The larger family for C: the list run, the fresh image and one event, as `c_fm31` does them, by the same clauses.
#![tactic(auto)]

ghost use Rattle.fm31.specs.Chip.{size_of};
ghost use Rattle.fm31.specs.declared.Size.TheVariants.{Kb64, Kb256};
ghost use Rattle.c_fm31.specs.Run.{RunSettled};
ghost use Rattle.c_fm31.specs.Fresh.{FreshSettled};
ghost use Rattle.c_fm31.specs.Single.{SingleSettled};

// The list run for C, of the 64Kb part.
#[unsafe(no_mangle)]
pub extern "C" fn fm3164_run(
    image: &mut [u8],
    memory: &mut [u8],
    events: &[u8],
    answers: &mut [u8],
) -> u64
    ensures { RunSettled (size_of Kb64) image.old memory.old events.now answers.old
        result image.new memory.new answers.new }
{
    c_fm31::run::fm3164_run(image, memory, events, answers)
}

// The list run for C, of the 256Kb part.
#[unsafe(no_mangle)]
pub extern "C" fn fm31256_run(
    image: &mut [u8],
    memory: &mut [u8],
    events: &[u8],
    answers: &mut [u8],
) -> u64
    ensures { RunSettled (size_of Kb256) image.old memory.old events.now answers.old
        result image.new memory.new answers.new }
{
    c_fm31::run::fm31256_run(image, memory, events, answers)
}

// Writes the fresh state's image, where the buffer has 64 bytes; any other is left as it is. It serves both sizes.
#[unsafe(no_mangle)]
pub extern "C" fn fm31_fresh(image: &mut [u8]) -> u64
    ensures { FreshSettled image.old result image.new }
{
    c_fm31::run::fm31_fresh(image)
}

// One event for C, on the 64Kb part.
#[unsafe(no_mangle)]
pub extern "C" fn fm3164_step(
    image: &mut [u8],
    memory: &mut [u8],
    event: u64,
    told: &mut [u8],
) -> u64
    ensures { SingleSettled (size_of Kb64) image.old memory.old event told.old
        result image.new memory.new told.new }
{
    c_fm31::step::fm3164_step(image, memory, event, told)
}

// One event for C, on the 256Kb part.
#[unsafe(no_mangle)]
pub extern "C" fn fm31256_step(
    image: &mut [u8],
    memory: &mut [u8],
    event: u64,
    told: &mut [u8],
) -> u64
    ensures { SingleSettled (size_of Kb256) image.old memory.old event told.old
        result image.new memory.new told.new }
{
    c_fm31::step::fm31256_step(image, memory, event, told)
}
