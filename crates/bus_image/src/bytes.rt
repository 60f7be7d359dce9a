// SPDX-License-Identifier: Apache-2.0
// Bytes of slices, cleared, copied from one to the other and compared; and the number that two bytes make.
ghost use Rattle.std.specs.Prelude.{◌≡◌, ◌+◌, ◌*◌, length, replicate};
ghost use Rattle.bus_image.specs.Bytes.{same_bytes};

// The number that two bytes make.
pub fn pair(high: u8, low: u8) -> u16
    ensures { result ≡ high * 256 + low }
{
    u16::from_be_bytes([high, low])
}

// Copies all bytes of one slice over another that is as long.
// Stays (speed): byte by byte. `copy_from_slice` is a memmove: an array just made is first laid on the stack for it, and a small processor's
// firmware would have to bring it.
pub fn copy(from: &[u8], to: &mut [u8])
    requires { length to.old ≡ length from.now }
    ensures { to.new ≡ from.now }
{
    for i in 0..from.len() {
        to[i] = from[i];
    }
}

// Sets every byte of a slice to 0.
pub fn clear(bytes: &mut [u8])
    ensures { bytes.new ≡ replicate (length bytes.old) 0 }
{
    bytes.fill(0);
}

// Whether two slices hold the same bytes.
pub fn same(a: &[u8], b: &[u8]) -> bool
    ensures { result ≡ same_bytes a.now b.now }
{
    a == b
}
