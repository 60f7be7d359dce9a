// SPDX-License-Identifier: Apache-2.0
// The lines of the next two Clocks for C: what `c_line` says, by the same clauses.
#![tactic(auto)]

ghost use Rattle.c_line.specs.Line.{LineSettled};

// What the device does to the next two lines, refused by the numbers 1 and 2; nothing is written.
#[unsafe(no_mangle)]
pub extern "C" fn fm3130_line(image: &[u8], memory: &[u8]) -> u64
    ensures { LineSettled image.now memory.now result }
{
    c_line::fm3130_line(image, memory)
}
