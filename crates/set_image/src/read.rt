// SPDX-License-Identifier: Apache-2.0
// The set that a plan and images hold. A plan has one byte a device: bits 1 and 0 are its select bits, bit 2 is 1 for the
// 256Kb size; the image of the device at place 0 to 3 begins at 64 times that place.
ghost use Rattle.std.specs.Prelude.{◌≡◌, ◌≤◌, ◌<◌, length};
ghost use Rattle.set_image.specs.Read.{count_of, mark_size, unread, device_at, place_of, reading_of};

use crate::{Got, Reading};
use bus::select::LONE;
use fm31::step::size_of;
use fm31::{Size, State};
use fm31_image::image::{LENGTH, decode};
use set_event::{Member, Set};

// How many devices a plan has; five stands for more than four.
#[tactic(auto, unfolding(crate::specs::Read::count_of))]
fn count_of(plan: &[u8]) -> u8
    ensures { result ≡ count_of plan.now }
{
    plan.len().min(5) as u8
}

// The size that a plan's byte chooses.
#[tactic(auto, unfolding(crate::specs::Read::mark_size))]
fn mark_size(mark: u8) -> Size
    ensures { result ≡ mark_size mark }
{
    if mark / 4 % 2 == 1 {
        Size::Kb256
    } else {
        Size::Kb64
    }
}

// A device whose image no well-formed state writes, or that has none.
fn unread(size: Size, select: u8) -> Got
    ensures { result ≡ unread size select }
{
    Got {
        good: false,
        member: Member {
            size,
            select,
            state: State::fresh(),
        },
    }
}

// The device at a place that the plan has.
fn device_at(plan: &[u8], images: &[u8], place: usize) -> Got
    requires { (place ≤ 3) × (place < length plan.now) }
    ensures { result ≡ device_at plan.now images.now place }
{
    let mark = plan[place];
    let size = mark_size(mark);
    let select = mark % 4;
    let from = LENGTH * place;
    if images.len() < from + LENGTH {
        return unread(size, select);
    }
    let Some(state) = decode(&images[from..from + LENGTH], size_of(size), select) else {
        return unread(size, select);
    };
    Got {
        good: mark < 8,
        member: Member {
            size,
            select,
            state,
        },
    }
}

// What is at a place, on the line or not.
// What is not on the line is spelled out, with no function of its own: it is then known whole where the program is compiled.
#[tactic(auto, unfolding(crate::specs::Read::place_of))]
fn place_of(plan: &[u8], images: &[u8], place: usize) -> Got
    requires { place ≤ 3 }
    ensures { result ≡ place_of plan.now images.now place }
{
    if place < plan.len() {
        return device_at(plan, images, place);
    }
    Got {
        good: true,
        member: Member {
            size: Size::Kb64,
            select: LONE,
            state: State::fresh(),
        },
    }
}

// The set that a plan and images hold.
#[tactic(auto, unfolding(crate::specs::Read::reading_of))]
pub fn read_set(plan: &[u8], images: &[u8]) -> Reading
    ensures { result ≡ reading_of plan.now images.now }
{
    let count = count_of(plan);
    let a = place_of(plan, images, 0);
    let b = place_of(plan, images, 1);
    let c = place_of(plan, images, 2);
    let d = place_of(plan, images, 3);
    let long = images.len() == LENGTH * count as usize;
    Reading {
        good: long & (a.good & (b.good & (c.good & d.good))),
        set: Set {
            count,
            first: a.member,
            second: b.member,
            third: c.member,
            fourth: d.member,
        },
    }
}
