// SPDX-License-Identifier: Apache-2.0
// A capture's table of contents: four entries, each with its section's kind, offset and length.
//
// entries    an entry of the table
// faults     whether an entry is sound, and the first that is not
// sections   the entry and the body of a kind, in a sound file
#![tactic(auto)]

ghost use Rattle.std.specs.Prelude.{◌≡◌};
ghost use Rattle.capture_table.specs.Table.{kind_number, KindOf};

pub mod entries;
pub mod faults;
pub mod sections;

// The kinds of sections: the starting image, the memory, the events, the answers; each with its number in the table.
#[derive(Clone, Copy, Debug, PartialEq, Eq)]
pub enum Kind {
    Image = 1,
    Memory = 2,
    Events = 3,
    Answers = 4,
}

// A number that is no kind's.
#[derive(Clone, Copy, Debug, PartialEq, Eq)]
pub struct UnknownKind;

impl Kind {
    // Its number in the table.
    pub(crate) fn number(self) -> u32
        ensures { result ≡ kind_number self }
    {
        self as u32
    }
}

impl TryFrom<u32> for Kind {
    type Error = UnknownKind;

    ghost try_from_gives = { KindOf };

    fn try_from(number: u32) -> Result<Self, UnknownKind> {
        match number {
            1 => Ok(Kind::Image),
            2 => Ok(Kind::Memory),
            3 => Ok(Kind::Events),
            4 => Ok(Kind::Answers),
            _ => Err(UnknownKind),
        }
    }
}

// An entry of the table: the kind of a section as the file has it, where in the file it begins, and its length.
#[derive(Clone, Copy, Debug, PartialEq, Eq)]
pub struct Entry {
    pub kind: u32,
    pub from: u32,
    pub size: u32,
}
