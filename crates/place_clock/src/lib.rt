// SPDX-License-Identifier: Apache-2.0
// A Clock where the transfer lies: bytes 26 to 29 of the image say in which byte it falls, and at which of its clocks.
//
// receive  a Clock in a byte that comes in
// send     a Clock in a byte that goes out, and any Clock
// Stays (C): the phase is asked by its number, which is what the image that C lends holds; `bus_image::Transfer` converts it.
// Stays (fixed): the lent buffers are slices in every public function here, and arrays would ask more of callers; `Accepted` says
// both lengths once.
#![tactic(auto)]

pub mod receive;
pub mod send;
