// SPDX-License-Identifier: Apache-2.0
// Where the image of every part holds what all parts have (docs/IMAGE.md).

// The companion's address.
pub const COMPANION_ADDRESS_AT: usize = 22;

// The memory address, high byte first.
pub const ADDRESS_HIGH_AT: usize = 23;

pub const ADDRESS_LOW_AT: usize = 24;

// The supplies, by their number.
pub const SUPPLIES_AT: usize = 25;

// The phase of the transfer, by its number.
pub const PHASE_AT: usize = 26;

// The clocks of the byte under way that are done, and that byte.
pub const CLOCKS_AT: usize = 27;

pub const BYTE_AT: usize = 28;

// The first address byte of a memory write, while the second is under way.
pub const FIRST_AT: usize = 29;

// The part's mark, two bytes, and the layout's number.
pub const MARK_HIGH_AT: usize = 61;

pub const MARK_LOW_AT: usize = 62;

pub const LAYOUT_AT: usize = 63;
