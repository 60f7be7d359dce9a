// SPDX-License-Identifier: Apache-2.0
// Data bytes from the memory: the clocks of such a byte. Over the memory's size.
ghost use Rattle.std.specs.Prelude.{◌≡◌, ◌<◌, length};
ghost use Rattle.wire.specs.Clock.{sent};
ghost use Rattle.wire.specs.Kinds.{memory_read};
ghost use Rattle.wire.specs.Memory.{lent, byte_at, stepped_on};
ghost use Rattle.wire.specs.Code.Outcome.{moved_of};

use crate::address::next_address;
use crate::nine::send;
use crate::{Moved, Side};

// A Clock in a data byte to the master.
pub fn fetch_clock(
    memory: &[u8],
    size: u16,
    address: u16,
    clocks: u8,
    byte: u8,
    high: bool,
) -> Moved
    requires { (length memory.now ≡ size) × (address < size) }
    ensures { result ≡ moved_of (sent (memory_read byte_at (stepped_on size)) (lent memory.now address) clocks byte high) }
{
    let turned = send(Side::Memory, memory[address as usize], clocks, byte, high);
    if clocks == 7 {
        return turned.with_address(next_address(size, address));
    }
    turned.with_address(address)
}
