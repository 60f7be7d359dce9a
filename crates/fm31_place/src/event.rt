// SPDX-License-Identifier: Apache-2.0
// One event on an image and the lent memory, with its answer byte.
ghost use Rattle.std.specs.Prelude.{◌≤◌};
ghost use Rattle.fm31.specs.Chip.{last_event, event_of};
ghost use Rattle.fm31_image.specs.Image.{candidate};
ghost use Rattle.fm31_place.specs.Lying.{Accepted, Answered};

use crate::room::serve_at;
use bus_deeds::deed_of;
use bus_image::layout::{bus_at, write_bus};
use fm31::step::answer_byte;
use fm31_counters::map::WP0;
use fm31_image::places::CONTROL_AT;

// One event of the ten: the companion does what it is asked, the bus does the rest.
pub fn happen(image: &mut [u8], memory: &mut [u8], size: u16, select: u8, event: u8) -> u8
    requires accepted { Accepted size select image.old memory.old }
    requires event_le_last_event { event ≤ last_event }
    ensures { Answered size select
        (event_of size select (candidate image.old) memory.old event)
        result image.new memory.new }
{
    let bus = bus_at(image);
    let guard = image[CONTROL_AT] / WP0 % 4;
    let reply = serve_at(image, deed_of(bus, event));
    let went = bus.happen(memory, size, select, guard, reply, event);
    write_bus(image, went.bus);
    answer_byte(went.line)
}
