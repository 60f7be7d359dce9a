// SPDX-License-Identifier: Apache-2.0
// A list of events on the FM3130: what it comes to is said in specs/, a value of what `bus_list` says of every part, and so are
// the laws in proofs/. The one function here is the test that every entry over a list makes first.
#![tactic(auto)]

ghost use Rattle.std.specs.Prelude.{◌≡◌};
ghost use Rattle.fm3130_list.specs.Run.{all_known};

// The last of the eight event bytes.
const LAST_EVENT: u8 = 7;

// Whether every event byte is one of the eight.
pub fn all_known(events: &[u8]) -> bool
    ensures { result ≡ all_known events.now }
{
    bus_list::all_known(events, LAST_EVENT)
}
