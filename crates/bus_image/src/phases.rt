// SPDX-License-Identifier: Apache-2.0
// The numbers of phases and supplies in an image. A phase that moves data has one for each of the two devices; those of bytes
// that go out are the last.

// No transfer.
pub const IDLE: u8 = 0;

// The slave byte.
pub const SLAVE: u8 = 1;

// The two address bytes of a memory write, and the address byte of a companion write.
pub const ADDRESS_HIGH: u8 = 2;

pub const ADDRESS_LOW: u8 = 3;

pub const POINTER: u8 = 4;

// Data bytes that come in.
pub const WRITE_MEMORY: u8 = 5;

pub const WRITE_COMPANION: u8 = 6;

// Data bytes that go out.
pub const READ_MEMORY: u8 = 7;

pub const READ_COMPANION: u8 = 8;

// Main power; backup alone; none.
pub const POWER_ON: u8 = 0;

pub const POWER_BACKUP: u8 = 1;

pub const POWER_OFF: u8 = 2;
