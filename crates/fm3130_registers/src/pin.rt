// SPDX-License-Identifier: Apache-2.0
// What 00h and 0Eh show outside: the ACS pin.
ghost use Rattle.std.specs.Prelude.{◌≡◌, ◌≤◌};
ghost use Rattle.fm3130_registers.specs.Pin.{number_of, function_of, pin_by};

use crate::map::{AEN, AF, ALSW, CAL};
use bits::has;

// The functions of the pin, each with its number.
#[derive(Clone, Copy, PartialEq, Eq, Debug)]
enum Function {
    Released = 0,
    Alarm = 1,
    Square = 2,
    Calibration = 3,
}

// The function that 00h and 0Eh choose.
fn function_of(control: u8, setup: u8) -> Function
    ensures { number_of result ≡ function_of control setup }
{
    if has(control, CAL) {
        Function::Calibration
    } else if !has(setup, ALSW) {
        Function::Square
    } else if has(control, AEN) {
        Function::Alarm
    } else {
        Function::Released
    }
}

// Bits 3 to 1 of an answer as a number, by 00h and 0Eh: the function, and 4 more where it is alarm and AF is 1.
pub fn pin_by(control: u8, setup: u8) -> u8
    ensures { (result ≡ pin_by control setup) × (result ≤ 7) }
{
    match function_of(control, setup) {
        Function::Alarm if has(control, AF) => Function::Alarm as u8 + 4,
        function => function as u8,
    }
}
