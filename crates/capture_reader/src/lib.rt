// SPDX-License-Identifier: Apache-2.0
// A reader over a lent file. The work is in a covered function on the slice and the place; the thin functions over the
// reader take it apart or put it together and call that one.
#![tactic(auto)]

ghost use Rattle.std.specs.Prelude.{◌≡◌};
ghost use Rattle.capture_reader.specs.Reading.{taken_at};

// A reader over a lent file: the file, and a place in it.
#[derive(Clone, Copy)]
pub struct Reader<'a> {
    pub file: &'a [u8],
    pub place: usize,
}

// What a reader takes: a byte, and the place after it.
#[derive(Clone, Copy)]
pub struct Taken {
    pub byte: u8,
    pub place: usize,
}

// The byte at a place, and the place after it; at the end 0, and the same place.
pub fn taken_at(file: &[u8], place: usize) -> Taken
    ensures { result ≡ taken_at file.now place }
{
    if place < file.len() {
        return Taken {
            byte: file[place],
            place: place + 1,
        };
    }
    Taken { byte: 0, place }
}

// The byte at a reader's place, and the place after it.
pub fn take<'a>(r: Reader<'a>) -> Taken
    ensures { result ≡ taken_at r.entry.file.now r.entry.place }
{
    taken_at(r.file, r.place)
}

// The same through a reader that is made here, for callers that carry the place as a number.
pub fn taken_through(file: &[u8], place: usize) -> Taken
    ensures { result ≡ taken_at file.now place }
{
    take(Reader { file, place })
}
