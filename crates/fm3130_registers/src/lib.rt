// SPDX-License-Identifier: Apache-2.0
// The FM3130's registers byte by byte: what each bit is, and what a write, a read, a tick and the return of main power make
// of one register's byte. Both the companion by value and the companion in its image are written with these.
//
//   map.rt       each bit by its weight, and the addresses
//   stored.rt    the bits that a register keeps of a byte
//   control.rt   00h, and what a write of it does to the core and to 02h to 08h
//   alarm.rt     a field of the alarm beside the calendar's
//   pin.rt       the ACS pin
#![tactic(auto)]

pub mod alarm;
pub mod control;
pub mod map;
pub mod pin;
pub mod stored;
