// SPDX-License-Identifier: Apache-2.0
// A set of up to four devices of the larger family, as it comes from a host and goes back to it: a plan, one byte a
// device, and the devices' images one after the other.
//
// read    the set that a plan and images hold
// write   the images of a set
#![tactic(auto)]

use set_event::{Member, Set};

pub mod read;
pub mod write;

// What a plan and an image say of one device: whether they are good, and the device. Where the image is not, the size and
// the select bits are the plan's all the same.
// Stays (plain): no Result, here and below: the count, the sizes and the select bits are asked for where an image is not good too,
// since numbers 9 and 1 go before 2.
#[derive(Clone, Copy)]
pub struct Got {
    pub good: bool,
    pub member: Member,
}

// What a plan and images say of a set.
#[derive(Clone, Copy)]
pub struct Reading {
    pub good: bool,
    pub set: Set,
}
