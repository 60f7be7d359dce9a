// SPDX-License-Identifier: Apache-2.0
// The images of a set's devices, each over its own place.
ghost use Rattle.std.specs.Prelude.{◌≡◌, ◌*◌, ◌≤◌, length};
ghost use Rattle.fm31_image.specs.Image.{image_size};
ghost use Rattle.set_image.specs.Write.{image_in, images_of};

use bus_image::bytes::copy;
use fm31::State;
use fm31_image::image::{LENGTH, image_of};
use set_event::Set;

// Writes a state's image over its place, if the place is on the line.
fn write_at(state: State, images: &mut [u8], count: u8, place: u8)
    requires { (length images.old ≡ image_size * count) × (place ≤ 3) }
    ensures { images.new ≡ image_in count place state images.old }
{
    if place < count {
        let from = LENGTH * place as usize;
        copy(&image_of(state), &mut images[from..from + LENGTH]);
    }
}

// Writes the images of a set of so many devices.
pub fn write_images(set: Set, images: &mut [u8], count: u8)
    requires { length images.old ≡ image_size * count }
    ensures { images.new ≡ images_of count set images.old }
{
    write_at(set.first.state, images, count, 0);
    write_at(set.second.state, images, count, 1);
    write_at(set.third.state, images, count, 2);
    write_at(set.fourth.state, images, count, 3);
}
