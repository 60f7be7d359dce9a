// SPDX-License-Identifier: Apache-2.0
// The lamps as a program: events on standard input, one byte each, at most 65,536; FFh is no event and stands for a fresh
// device with a memory of zeros and the record before any event. Each time the report changes a line is written: the place
// of the byte in the input, counted from 0, and the report in hex, bit k for lamp k.
#![tactic(auto)]

use c_lamps::run::fm3130_lamps;
use c_run::run::fm3130_fresh;
use fm3130_image::{LENGTH, MEMORY};
use lamps_bytes::RECORD;
use std::io;
use std::io::Read;

// The byte that stands for a fresh device.
const ANEW: u8 = 255;

// The most bytes that are read.
const ROOM: usize = 65536;

// A device: its state as an image, its memory, and the record that its lamps follow.
#[derive(Clone, Copy)]
struct Panel {
    image: [u8; LENGTH],
    memory: [u8; MEMORY],
    record_bytes: [u8; RECORD],
}

impl Panel {
    // A fresh device, its memory all 0, and the record before any event: all lamps are dark.
    fn new() -> Panel {
        let mut image = [0; LENGTH];
        fm3130_fresh(&mut image);
        Panel {
            image,
            memory: [0; MEMORY],
            record_bytes: [0; RECORD],
        }
    }

    // One event on the device and the record; the report after it.
    fn report_after(&mut self, event: u8) -> u64 {
        if event == ANEW {
            *self = Panel::new();
            return 0;
        }
        let mut answers = [0; 1];
        fm3130_lamps(
            &mut self.image,
            &mut self.memory,
            &[event],
            &mut answers,
            &mut self.record_bytes,
        )
        .report
    }
}

// Every byte of the input.
fn play(rt: &impl Print, input: &[u8]) -> io::Result<()> {
    let mut panel = Panel::new();
    let mut report = 0;
    for (place, event) in input.iter().enumerate() {
        let after = panel.report_after(*event);
        if after != report {
            println!(rt; "{place} {after:02x}")?;
        }
        report = after;
    }
    Ok(())
}

fn main(rt: HostRuntime) -> io::Result<()> {
    // Stays (fixed): an array and no Vec, as in main_judge.
    let mut input = [0; ROOM];
    let count = io::copy(&mut rt.reader().take(ROOM as u64), &mut &mut input[..])?;
    play(&rt, &input[..ROOM.min(count as usize)])
}
