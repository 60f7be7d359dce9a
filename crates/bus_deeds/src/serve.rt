// SPDX-License-Identifier: Apache-2.0
// What an event asks of a companion, done: written and proved once, for the companion of every part.
ghost use Rattle.std.specs.Prelude.{◌≡◌};
ghost use Rattle.bus.specs.declared.Beat.{Beat};
ghost use Rattle.bus_deeds.specs.Serve as Serve;
ghost use Rattle.bus_deeds.specs.Serve.{Ways, taken_of, took_of, served_with, told_by, saying};

use crate::Deed;
use bus::{Beat, Reply};

// What taking a byte leaves, and whether the byte is acknowledged.
// Stays (plain): a refused data byte moves the address all the same, so the companion counts whatever the flag says.
#[derive(Clone, Copy)]
pub struct Taken<C> {
    pub companion: C,
    pub acknowledged: bool,
}

// The companion once it did what it was asked, its reply, and what a beat told.
#[derive(Clone, Copy)]
pub struct Served<C, T> {
    pub companion: C,
    pub reply: Reply,
    pub told: Option<T>,
}

// A companion, as an event asks it: `ways` says what each method does, and `told` what a beat tells.
pub trait Desk: Copy {
    type Told;

    ghost ready: { Self → Type 0 };

    ghost ways: { Ways Self };

    ghost told: { Beat → Self → Self.Told };

    // An address byte.
    fn aim(self, byte: u8) -> Taken<Self>
        ensures { taken_of result ≡ ways.aim self byte };

    // A data byte at its eighth clock.
    fn store(self, byte: u8) -> Taken<Self>
        requires { ready self }
        ensures { taken_of result ≡ ways.store self byte };

    // The byte at the address.
    fn load(self) -> u8
        requires { ready self }
        ensures { result ≡ ways.load self };

    // The end of a read whose byte was fixed as the one given.
    fn loaded(self, byte: u8) -> Self
        requires { ready self }
        ensures { result ≡ ways.loaded self byte };

    // A tick or an edge, with what it tells.
    fn beat(self, beat: Beat) -> (Self, Self::Told)
        ensures { result ≡ record { 0 = ways.beaten beat self; 1 = told beat self } };

    // Main power lost with backup.
    fn backed(self) -> Self
        ensures { result ≡ ways.backed self };

    // Both supplies gone.
    fn lost(self) -> Self
        ensures { result ≡ ways.lost self };

    // Main power back after backup.
    fn returned(self) -> Self
        ensures { result ≡ ways.returned self };
}

// A companion with nothing to say.
fn quiet<C, T>(companion: C) -> Served<C, T>
    ensures { result ≡ saying (Serve.quiet companion) None }
{
    Served {
        companion,
        reply: Reply {
            good: true,
            byte: 0,
        },
        told: None,
    }
}

// A byte that was taken, or was not.
fn took<C, T>(taken: Taken<C>) -> Served<C, T>
    ensures { result ≡ saying (took_of (taken_of taken)) None }
{
    Served {
        companion: taken.companion,
        reply: Reply {
            good: taken.acknowledged,
            byte: 0,
        },
        told: None,
    }
}

// The companion does what it is asked.
pub fn serve<C: Desk>(companion: C, deed: Deed) -> Served<C, C::Told>
    requires { C.ready companion }
    ensures { result ≡ saying (served_with C.ways deed companion) (told_by C.told deed companion) }
{
    match deed {
        Deed::Nothing => quiet(companion),
        Deed::Aim(byte) => took(companion.aim(byte)),
        Deed::Store(byte) => took(companion.store(byte)),
        Deed::Load => Served {
            companion,
            reply: Reply {
                good: true,
                byte: companion.load(),
            },
            told: None,
        },
        Deed::Loaded(byte) => quiet(companion.loaded(byte)),
        Deed::Beat(beat) => {
            let (next, told) = companion.beat(beat);
            Served {
                companion: next,
                reply: Reply {
                    good: true,
                    byte: 0,
                },
                told: Some(told),
            }
        }
        Deed::Backed => quiet(companion.backed()),
        Deed::Lost => quiet(companion.lost()),
        Deed::Returned => quiet(companion.returned()),
    }
}
