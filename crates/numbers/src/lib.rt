// SPDX-License-Identifier: Apache-2.0
// Why a call is refused: 01's table, and after it 02's requests, each given exactly when its line says. All entries of all parts
// take them from here. What a host program is told is the number: 0, or that of the refusal.
#![tactic(auto)]

ghost use Rattle.std.specs.Prelude.{◌≡◌, ◌≤◌};
ghost use Rattle.numbers.specs.Refusal.{number_of, number_told};

// none of the refusals
pub const ACCEPTED: u8 = 0;

#[derive(Clone, Copy, Debug, PartialEq, Eq)]
pub enum Refusal {
    // memory has not the part's length
    WrongMemory = 1,
    // the image is not 64 bytes, or no well-formed state writes it; for a state by value, outside the limits
    WrongState = 2,
    // some event byte is above the part's last
    UnknownEvent = 3,
    // answers shorter than events
    ShortAnswers = 4,
    // viewer: selector neither 0 (memory) nor 1 (registers)
    UnknownSelector = 5,
    // viewer: start + length passes the end of the chosen bytes
    PastTheEnd = 6,
    // two masters (02, number 8): an ask while the other holds the bus, or a call with an event 0 to 3 by a master that does
    // not hold it
    NotHeld = 7,
    // catching up (02, number 7): more ticks than a leap year has
    TooManyTicks = 8,
    // a set (02, number 12): a count that is not 1 to 4
    WrongCount = 9,
    // a set: two devices with the same select bits
    EqualSelects = 10,
    // a set: a device that is not between transfers
    InTransfer = 11,
}

impl Refusal {
    // Its number in the table.
    pub fn number(self) -> u8
        ensures { (result ≡ number_of self) × (result ≤ 11) }
    {
        self as u8
    }
}

// The number as a host program is told it.
impl From<Refusal> for u64 {
    ghost from_gives = { λ r n. n ≡ number_of r };

    fn from(refusal: Refusal) -> u64 {
        u64::from(refusal.number())
    }
}

// What a host program is told of a call: 0 where it was accepted, else the refusal's number.
pub fn number_told(outcome: Result<(), Refusal>) -> u64
    ensures { result ≡ number_told outcome }
{
    match outcome {
        Ok(()) => u64::from(ACCEPTED),
        Err(refusal) => u64::from(refusal),
    }
}
