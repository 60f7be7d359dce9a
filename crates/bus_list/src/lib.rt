// SPDX-License-Identifier: Apache-2.0
// A list of events, of any part: what it comes to is said in specs/, as definitions over what one event does, and proofs/ has
// the laws of lists, in one call or cut into several. The one function here is the test that every entry over a list makes first.
#![tactic(auto)]

ghost use Rattle.std.specs.Prelude.{◌≡◌};
ghost use Rattle.bus_list.specs.Run.{all_known};

// Whether no event byte is above the last. All are tested, by a fold and not by `all`, which stops early, so that many go at once.
pub fn all_known(events: &[u8], last: u8) -> bool
    ensures { result ≡ all_known last events.now }
{
    events
        .iter()
        .fold(true, |known, event| known & (*event <= last))
}
