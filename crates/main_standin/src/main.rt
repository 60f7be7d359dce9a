// SPDX-License-Identifier: Apache-2.0
// The stand-in as a program: frames on standard input, lines on standard output. A frame begins with two bytes, a length,
// low byte first:
//
//   FFFFh        a fresh device with a memory of zeros
//   0000h        a report: the image in hex, and the sum of the memory
//   any other    so many event bytes follow: they are run, and the number, the count and the sum of the answers are written
//
// Each frame of events is done twice: by the list run, which changes the image where it lies, and then one by one, on copies, by
// the entry for a state by value. Where the two differ a line says so, which no expected output has.
//
// It ends with its input, or at a frame that is cut short.
#![tactic(auto)]

use c_run::run::{fm3130_fresh, fm3130_run};
use fm3130_accept::decode;
use fm3130_image::write::image_of;
use fm3130_image::{LENGTH, MEMORY};
use numbers::ACCEPTED;
use std::io;
use std::io::{ErrorKind, Read};

// A length that stands for a fresh device.
const ANEW: u16 = 65535;

// Room for the longest frame of events, and for the answers to it.
const ROOM: usize = 65536;

// The most frames that one run reads.
const FRAMES: u32 = 1000000;

// A sum over bytes in their order, below 2^32.
fn sum_of(bytes: &[u8]) -> u64 {
    bytes.iter().fold(0, |sum, byte| {
        (sum % 4294967291 * 257 + u64::from(*byte)) % 4294967291
    })
}

// A device: its state as an image, and its memory.
#[derive(Clone, Copy)]
struct Device {
    image: [u8; LENGTH],
    memory: [u8; MEMORY],
}

impl Device {
    // A fresh device, its memory all 0.
    fn new() -> Device {
        let mut image = [0; LENGTH];
        fm3130_fresh(&mut image);
        Device {
            image,
            memory: [0; MEMORY],
        }
    }

    fn report(&self, rt: &impl Print) -> io::Result<()> {
        print!(rt; "image ")?;
        for byte in &self.image {
            print!(rt; "{byte:02x}")?;
        }
        println!(rt; " memory {:08x}", sum_of(&self.memory))
    }

    // Whether the events, done one by one by value, are answered as the answers have it and leave the device that is given.
    fn leads_to(mut self, events: &[u8], answers: &[u8], after: &Device) -> bool {
        let Some(mut state) = decode(&self.image) else {
            return false;
        };
        for (event, answer) in events.iter().zip(answers) {
            let stepped = state.step(&mut self.memory, *event);
            if stepped.number != ACCEPTED || stepped.answer != *answer {
                return false;
            }
            state = stepped.state;
        }
        image_of(state) == after.image && self.memory == after.memory
    }

    // Runs events and writes a line: the number, the count, and the sum of the answers.
    fn run_events(&mut self, rt: &impl Print, events: &[u8], answers: &mut [u8]) -> io::Result<()> {
        let before = *self;
        let ran = fm3130_run(&mut self.image, &mut self.memory, events, answers);
        println!(rt; "{} {} {:08x}", ran.number, ran.count, sum_of(answers))?;
        if !before.leads_to(events, answers, self) {
            println!(rt; "by value it differs")?;
        }
        Ok(())
    }

    // One frame; an error where the input ends before its end. Where a frame is refused the sum is that of the answers that
    // stood there before.
    fn frame(
        &mut self,
        rt: &impl Print,
        input: &mut impl Read,
        events: &mut [u8; ROOM],
        answers: &mut [u8; ROOM],
    ) -> io::Result<()> {
        let mut header = [0; 2];
        input.read_exact(&mut header)?;
        match u16::from_le_bytes(header) {
            ANEW => *self = Device::new(),
            0 => self.report(rt)?,
            length => {
                let length = usize::from(length);
                input.read_exact(&mut events[..length])?;
                self.run_events(rt, &events[..length], &mut answers[..length])?;
            }
        }
        Ok(())
    }
}

// Every frame of the input.
fn all_frames(rt: &impl Print, input: &mut impl Read) -> io::Result<()> {
    let mut device = Device::new();
    // Stays (fixed): one array for all frames and no Vec for each, as in main_judge.
    let mut events = [0; ROOM];
    let mut answers = [0; ROOM];
    for _ in 0..FRAMES {
        device.frame(rt, input, &mut events, &mut answers)?;
    }
    Ok(())
}

fn main(rt: HostRuntime) -> io::Result<()> {
    match all_frames(&rt, &mut rt.reader()) {
        Err(e) if e.kind() == ErrorKind::UnexpectedEof => Ok(()),
        outcome => outcome,
    }
}
