// SPDX-License-Identifier: Apache-2.0
// Register 00h: what a write leaves of it, of the core and of 02h to 08h, what a read clears, what a tick and the return of
// main power set.
ghost use Rattle.std.specs.Prelude.{◌≡◌};
ghost use Rattle.fm3130_registers.specs.Control.{flagged, control_after, flags_after, told_of, por_set};
ghost use Rattle.fm3130_registers.specs.Control.{w_falls, core_after, frozen, followed, time_after};

use crate::map::{AF, CF, LB, POR, R, W};
use bits::{has, only};
use calendar::Calendar;

// 00h with AF and CF as said, the rest kept.
fn flagged(control: u8, af: bool, cf: bool) -> u8
    ensures { result ≡ flagged control af cf }
{
    control / 128 * 128 + only(af, AF) + only(cf, CF) + control % 32
}

// 00h after a write of a byte: LB and POR stay only where the byte has them too, AF and CF stay, the low four are the
// byte's.
pub fn control_after(old: u8, byte: u8) -> u8
    ensures { result ≡ control_after old byte }
{
    let lb = only(has(old, LB) & has(byte, LB), LB);
    let por = only(has(old, POR) & has(byte, POR), POR);
    lb + old / 32 % 4 * 32 + por + byte % 16
}

// 00h after it was read as a byte: a flag that the byte showed is cleared, one that rose later is not.
pub fn flags_after(control: u8, byte: u8) -> u8
    ensures { result ≡ flags_after control byte }
{
    let af = has(control, AF) & !has(byte, AF);
    let cf = has(control, CF) & !has(byte, CF);
    flagged(control, af, cf)
}

// Whether W falls in a write of 00h.
pub fn w_falls(old: u8, byte: u8) -> bool
    ensures { result ≡ w_falls old byte }
{
    has(old, W) & !has(byte, W)
}

// The core after a write of 00h: where W falls it takes 02h to 08h.
pub fn core_after(old: u8, byte: u8, core: Calendar, time: Calendar) -> Calendar
    ensures { result ≡ core_after old byte core time }
{
    if w_falls(old, byte) {
        return time;
    }
    core
}

// 02h to 08h where R rises: they take the core.
fn frozen(old: u8, byte: u8, core: Calendar, time: Calendar) -> Calendar
    ensures { result ≡ frozen old byte core time }
{
    if has(byte, R) & !has(old, R) {
        return core;
    }
    time
}

// 02h to 08h where R and W are 0: they follow the core.
pub fn followed(control: u8, core: Calendar, time: Calendar) -> Calendar
    ensures { result ≡ followed control core time }
{
    if has(control, W) | has(control, R) {
        return time;
    }
    core
}

// 02h to 08h after a write of 00h, given the core as the write leaves it.
pub fn time_after(old: u8, byte: u8, core: Calendar, time: Calendar) -> Calendar
    ensures { result ≡ time_after old byte core time }
{
    let shown = frozen(old, byte, core, time);
    followed(byte, core, shown)
}

// 00h after a tick that counts: AF rises where the alarm rang, CF where the year left the century.
pub fn told(control: u8, rung: bool, century: bool) -> u8
    ensures { result ≡ told_of control rung century }
{
    let af = has(control, AF) | rung;
    let cf = has(control, CF) | century;
    flagged(control, af, cf)
}

// 00h with POR at 1.
pub fn por_set(control: u8) -> u8
    ensures { result ≡ por_set control }
{
    control / 32 * 32 + POR + control % 16
}
