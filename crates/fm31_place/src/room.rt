// SPDX-License-Identifier: Apache-2.0
// The companion does what it is asked, where it lies in the image. Most events ask nothing of it.
ghost use Rattle.std.specs.Prelude.{◌≡◌, ◌≤◌, length, get_or};
ghost use Rattle.fm31_counters.specs.Map.{FIRST, LAST};
ghost use Rattle.bus_deeds.specs.Serve as Serve;
ghost use Rattle.fm31.specs.Chip.{companion31};
ghost use Rattle.fm31.specs.declared.State.{State};
ghost use Rattle.fm31_image.specs.Image.{image_size, image_of};
ghost use Rattle.bus_image.specs.Places.{COMPANION_ADDRESS_AT};
ghost use Rattle.fm31_place.specs.Lying.{Served};

use bus::Reply;
use bus_deeds::Deed;
use bus_deeds::serve::serve;
use fm31_image::image::{counters_at, write_counters};

// The companion is read, does what it is asked, and is written back beside its bus, whose bytes stay.
fn ask(image: &mut [u8], deed: Deed) -> Reply
    requires { (length image.old ≡ image_size) × (FIRST ≤ get_or image.old COMPANION_ADDRESS_AT 0) × (get_or image.old COMPANION_ADDRESS_AT 0 ≤ LAST) }
    ensures { (s : State) → image.old ≡ image_of s
        → Served s (Serve.served_of companion31 deed s.counters) result image.new }
{
    let served = serve(counters_at(image), deed);
    write_counters(served.companion, image);
    served.reply
}

// What an event asks of the companion, done where it lies.
pub(crate) fn serve_at(image: &mut [u8], deed: Deed) -> Reply
    requires { (length image.old ≡ image_size) × (FIRST ≤ get_or image.old COMPANION_ADDRESS_AT 0) × (get_or image.old COMPANION_ADDRESS_AT 0 ≤ LAST) }
    ensures { (s : State) → image.old ≡ image_of s
        → Served s (Serve.served_of companion31 deed s.counters) result image.new }
{
    if let Deed::Nothing = deed {
        return Reply {
            good: true,
            byte: 0,
        };
    }
    ask(image, deed)
}
