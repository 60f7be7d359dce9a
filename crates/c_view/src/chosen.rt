// SPDX-License-Identifier: Apache-2.0
// The viewer over the size of the memory and the number of registers at the front of an image: the part of one of the two
// lent slices, or why there is none.
ghost use Rattle.std.specs.Prelude.{◌≡◌, ◌≤◌};
ghost use Rattle.fm3130_image.specs.Image.{image_size};
ghost use Rattle.c_view.specs.View.{ViewNumberSettled, ViewSettled};
ghost use Rattle.c_view.specs.Code.Found.{BytesFound, PartFound, ViewFound};

use fm3130_image::LENGTH;
use numbers::{ACCEPTED, Refusal};

// What a caller asks to see: of the bytes that a selector names, 0 memory and 1 registers, so many from a start on.
#[derive(Clone, Copy)]
pub(crate) struct Window {
    selector: u64,
    start: usize,
    length: usize,
}

impl Window {
    pub(crate) fn new(selector: u64, start: usize, length: usize) -> Self
        ensures { result ≡ record { selector = selector; start = start; length = length } }
    {
        Window {
            selector,
            start,
            length,
        }
    }

    // Its part of those bytes: start + length, the exact sum, may not pass their end. Nothing is added before the tests, so
    // nothing wraps.
    fn within<'a>(self, bytes: &'a [u8]) -> Result<&'a [u8], Refusal>
        ensures { PartFound bytes.entry self.start self.length result }
    {
        let total = bytes.len();
        if self.start <= total && self.length <= total - self.start {
            Ok(&bytes[self.start..self.start + self.length])
        } else {
            Err(Refusal::PastTheEnd)
        }
    }
}

// What is seen of a part: the bytes of its memory, and its registers, at the front of an image.
#[derive(Clone, Copy)]
pub(crate) struct Viewed {
    pub size: u16,
    pub count: u8,
    ghost in_image: { count ≤ image_size },
}

impl Viewed {
    // The bytes that a selector names.
    fn chosen<'a>(
        self,
        image: &'a [u8],
        memory: &'a [u8],
        selector: u64,
    ) -> Result<&'a [u8], Refusal>
        ensures { BytesFound self.size self.count image.entry memory.entry selector result }
    {
        if memory.len() != self.size as usize {
            return Err(Refusal::WrongMemory);
        }
        if image.len() != LENGTH {
            return Err(Refusal::WrongState);
        }
        match selector {
            0 => Ok(memory),
            1 => Ok(&image[..self.count as usize]),
            _ => Err(Refusal::UnknownSelector),
        }
    }

    // The part itself, or the first refusal that fits.
    fn part<'a>(
        self,
        image: &'a [u8],
        memory: &'a [u8],
        window: Window,
    ) -> Result<&'a [u8], Refusal>
        ensures { ViewFound self.size self.count image.entry memory.entry
            window.selector window.start window.length result }
    {
        let bytes = self.chosen(image, memory, window.selector)?;
        window.within(bytes)
    }

    // The viewer: the part; an empty part of memory under every number but 0.
    pub(crate) fn view<'a>(self, image: &'a [u8], memory: &'a [u8], window: Window) -> &'a [u8]
        ensures { ViewSettled self.size self.count image.entry memory.entry
            window.selector window.start window.length result }
    {
        self.part(image, memory, window).unwrap_or(&memory[..0])
    }

    // The viewer's number, for any selector.
    pub(crate) fn number(self, image: &[u8], memory: &[u8], window: Window) -> u8
        ensures { ViewNumberSettled self.size self.count image.now memory.now
            window.selector window.start window.length result }
    {
        match self.part(image, memory, window) {
            Ok(_) => ACCEPTED,
            Err(refusal) => refusal.number(),
        }
    }
}
