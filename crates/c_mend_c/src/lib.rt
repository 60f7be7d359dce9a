// SPDX-License-Identifier: Apache-2.0
// An image put right for C: what `c_mend` does, by the same clauses.
#![tactic(auto)]

ghost use Rattle.c_mend.specs.Mend.{MendSettled};

use c_mend::Mended;

// Puts an image right: refused by the first number that fits, with nothing written; or the image written, and the list at
// the front of the lent bytes.
#[unsafe(no_mangle)]
pub extern "C" fn fm3130_mend(image: &mut [u8], changes: &mut [u8]) -> Mended
    ensures { MendSettled image.old changes.old result
        image.new changes.new }
{
    c_mend::fm3130_mend(image, changes)
}
