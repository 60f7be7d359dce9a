// SPDX-License-Identifier: Apache-2.0
// Clocks of one byte, up to its eighth: they leave the lamps as they are, so the device does them in a row. What the record
// keeps of the byte under way is gathered from their answers.
ghost use Rattle.std.specs.Prelude.{◌≡◌, true, false, ◌+◌, ◌/◌, ◌<◌, ◌≤◌, eqb, length, take};
ghost use Rattle.std.specs.List.{prefix_len};
ghost use Rattle.fm3130_image.specs.Image.{candidate};
ghost use Rattle.fm3130_image.specs.Code.Accepting.{is_image};
ghost use Rattle.lamps.specs.Log.{clocks_of};
ghost use Rattle.c_lamps.specs.Row.{Clocks, gathered_over, rowed_by};

use bus_image::phases::READ_MEMORY;
use bus_image::places::CLOCKS_AT;
use lamps::Follower;

// With how many Clocks a list begins.
fn clocks_before(events: &[u8]) -> usize
    ensures { result ≡ prefix_len (λ e. eqb (e / 2) 1) events.now }
{
    events.iter().take_while(|event| **event / 2 == 1).count()
}

// The same, at most so many.
fn leading_clocks(events: &[u8], most: u8) -> usize
    ensures { (result ≤ length events.now) × (result ≤ most) × Clocks (take result events.now) }
{
    clocks_before(&events[..events.len().min(usize::from(most))])
}

// How many events are done together: the Clocks that are left of a byte before its ninth, or one event. A refused byte has
// eight clocks done, whatever the image says.
pub(crate) fn part_length(image: &[u8], refused: bool, events: &[u8]) -> usize
    requires { (is_image image.now ≡ true) × (0 < length events.now) }
    ensures { (0 < result) × (result ≤ length events.now)
        × (1 < result → (refused ≡ false) × Clocks (take result events.now)
        × (clocks_of (candidate image.now).phase + result ≤ 8)) }
{
    let clocks = image[CLOCKS_AT];
    if refused || clocks > 6 {
        return 1;
    }
    leading_clocks(events, 8 - clocks).max(1)
}

// A byte read from the memory, gathered from the answers to some of its clocks.
fn gather_all(follower: Follower, clocks: u8, address: u16, answers: &[u8]) -> Follower
    requires { clocks + length answers.now ≤ 8 }
    ensures { result ≡ gathered_over clocks follower address answers.now }
{
    let mut gathered = follower;
    for (i, answer) in answers.iter().enumerate() {
        gathered = gathered.gather(clocks + i as u8, address, false, answer % 2 == 1);
    }
    gathered
}

// The byte under way after a row of its clocks: phase, clocks done and address before the row, as the image has them; whether
// the device refused it at its eighth clock; and the answers.
pub(crate) fn after_row(
    follower: Follower,
    number: u8,
    clocks: u8,
    address: u16,
    refused: bool,
    answers: &[u8],
) -> Follower
    requires { clocks + length answers.now ≤ 8 }
    ensures { result ≡ rowed_by number clocks follower address refused answers.now }
{
    if number != READ_MEMORY {
        return Follower {
            refused,
            place: 0,
            byte: 0,
        };
    }
    Follower {
        refused,
        ..gather_all(follower, clocks, address, answers)
    }
}
