// SPDX-License-Identifier: Apache-2.0
// One event on one device of a set.
ghost use Rattle.std.specs.Prelude.{◌≡◌, ◌≤◌};
ghost use Rattle.set_event.specs.Set.{held, hears};
ghost use Rattle.set_event.specs.Code.Outcome.{Fit, HeardAs};

use crate::{Heard, Member};
use fm31::step::size_of;
use fm31_run::hear::{hears_at, own_byte};

// Whether the device at a place, 0 to 3, of so many hears an event.
fn hears(count: u8, place: u8, event: u8) -> bool
    requires { place ≤ 3 }
    ensures { result ≡ hears count place event }
{
    (place < count) & hears_at(place, event)
}

impl Member {
    // One event of a set: done as the device alone would do it, if it hears it.
    pub(crate) fn hear(self, count: u8, place: u8, memory: &mut [u8], event: u8) -> Heard
        requires place_bound { place ≤ 3 }
        requires fit { Fit count place (held self memory.old) }
        ensures { HeardAs count place (held self memory.old) event result memory.new }
    {
        if hears(count, place, event) {
            let size = size_of(self.size);
            let answered = self
                .state
                .advance(memory, size, self.select, own_byte(event));
            return Heard {
                member: Member {
                    state: answered.state,
                    ..self
                },
                line: answered.answer == 1,
            };
        }
        Heard {
            member: self,
            line: true,
        }
    }
}
