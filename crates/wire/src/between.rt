// SPDX-License-Identifier: Apache-2.0
// How a transfer goes on or ends between two bytes.
ghost use Rattle.std.specs.Prelude.{◌≡◌};
ghost use Rattle.wire.specs.Clock.{kept, more};
ghost use Rattle.wire.specs.declared.Phase.TheVariants.{Write, Read};

use crate::{Phase, Side};

// The phase at the eighth clock of a byte from the master: a byte that is not acknowledged ends the transfer there.
pub(crate) fn keep(acknowledged: bool, phase: Phase) -> Phase
    ensures { result ≡ kept acknowledged phase }
{
    if acknowledged { phase } else { Phase::Idle }
}

// The phase after the ninth clock of a byte to the master: its low bit asks for more, its high bit ends the transfer.
pub(crate) fn go_on(high: bool, phase: Phase) -> Phase
    ensures { result ≡ more high phase }
{
    keep(!high, phase)
}

// A byte to the master, so many of its clocks done.
pub(crate) fn sending(side: Side, clocks: u8, byte: u8) -> Phase
    ensures { result ≡ Read side clocks byte }
{
    Phase::Read { side, clocks, byte }
}

// A data byte from the master, none of its clocks done.
pub(crate) fn awaiting(side: Side) -> Phase
    ensures { result ≡ Write side 0 0 }
{
    Phase::Write {
        side,
        clocks: 0,
        byte: 0,
    }
}
