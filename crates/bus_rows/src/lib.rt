// SPDX-License-Identifier: Apache-2.0
// Rows of Clocks where a transfer lies, in the image of any part: bits that are only kept, bits that are only sent, Clocks that
// nobody hears. They touch bytes 27 and 28 alone. A part hands over the bits of its answers beside the line, which stay through
// a row. Each function returns the place after the last event that it did.
// Stays (plain): a row ends at the first event that is no Clock, so its loop goes by the place, which is what it returns.
#![tactic(auto)]

ghost use Rattle.std.specs.Prelude.{◌≡◌, ◌<◌, ◌≤◌, length, get_or, set};
ghost use Rattle.bus_image.specs.Places.{CLOCKS_AT, BYTE_AT};
ghost use Rattle.bus_rows.specs.Row.{Received, Sent, Unheard};

use bus_image::places::{BYTE_AT, CLOCKS_AT};
use wire::bits::{push, sending_line};

// The clocks done and the bits of the byte under way.
fn settle(image: &mut [u8], clocks: u8, byte: u8)
    requires { length image.old ≡ 64 }
    ensures { image.new ≡ set (set image.old CLOCKS_AT clocks) BYTE_AT byte }
{
    image[CLOCKS_AT] = clocks;
    image[BYTE_AT] = byte;
}

// The first seven bits of a byte that comes in: they are only kept.
pub fn receive_row(
    image: &mut [u8],
    pin: u8,
    events: &[u8],
    answers: &mut [u8],
    from: usize,
) -> usize
    requires image_len { (length image.old ≡ 64) × (get_or image.old CLOCKS_AT 0 < 7) × (pin ≤ 14) }
    requires from_in_bounds { (from ≤ length events.now) × (length events.now ≤ length answers.old) }
    ensures { Received pin events.now image.old answers.old from
        image.new answers.new result }
{
    let mut clocks = image[CLOCKS_AT];
    let mut byte = image[BYTE_AT];
    let end = events.len().min(from + usize::from(7 - clocks));
    for i in from..end {
        let event = events[i];
        if event / 2 != 1 {
            settle(image, clocks, byte);
            return i;
        }
        byte = push(byte, event % 2 == 1);
        answers[i] = pin + event % 2;
        clocks += 1;
    }
    settle(image, clocks, byte);
    end
}

// The second to seventh bit of a byte that goes out.
pub fn send_row(image: &mut [u8], pin: u8, events: &[u8], answers: &mut [u8], from: usize) -> usize
    requires image_len { (length image.old ≡ 64) × (get_or image.old CLOCKS_AT 0 < 7) × (pin ≤ 14) }
    requires from_in_bounds { (from ≤ length events.now) × (length events.now ≤ length answers.old) }
    ensures { Sent pin events.now image.old answers.old from
        image.new answers.new result }
{
    let mut clocks = image[CLOCKS_AT];
    let byte = image[BYTE_AT];
    let end = events.len().min(from + usize::from(7 - clocks));
    for i in from..end {
        let event = events[i];
        if event / 2 != 1 {
            settle(image, clocks, byte);
            return i;
        }
        answers[i] = pin + u8::from(sending_line(byte, clocks, event % 2 == 1));
        clocks += 1;
    }
    settle(image, clocks, byte);
    end
}

// Clocks that nobody hears.
pub fn idle_row(pin: u8, events: &[u8], answers: &mut [u8], from: usize) -> usize
    requires pin_bound { pin ≤ 14 }
    requires from_in_bounds { (from ≤ length events.now) × (length events.now ≤ length answers.old) }
    ensures { Unheard pin events.now answers.old from answers.new result }
{
    for i in from..events.len() {
        let event = events[i];
        if event / 2 != 1 {
            return i;
        }
        answers[i] = pin + event % 2;
    }
    events.len()
}
