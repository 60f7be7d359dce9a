// SPDX-License-Identifier: Apache-2.0
// One event on all devices of a set.
ghost use Rattle.std.specs.Prelude.{◌≡◌};
ghost use Rattle.set_event.specs.Outcome.{lent_to, SetFit, HappenedAs};

use crate::{Happened, Set};

impl Set {
    // One event: each device takes what it hears; the line is low if any pulls it low.
    pub fn happen(
        self,
        one: &mut [u8],
        two: &mut [u8],
        three: &mut [u8],
        four: &mut [u8],
        event: u8,
    ) -> Happened
        requires { SetFit (lent_to self one.old two.old three.old four.old) }
        ensures { HappenedAs (lent_to self one.old two.old three.old four.old) event
            result one.new two.new three.new four.new }
    {
        let a = self.first.hear(self.count, 0, one, event);
        let b = self.second.hear(self.count, 1, two, event);
        let c = self.third.hear(self.count, 2, three, event);
        let d = self.fourth.hear(self.count, 3, four, event);
        Happened {
            set: Set {
                count: self.count,
                first: a.member,
                second: b.member,
                third: c.member,
                fourth: d.member,
            },
            line: a.line & (b.line & (c.line & d.line)),
        }
    }
}
