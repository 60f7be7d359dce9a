// SPDX-License-Identifier: Apache-2.0
// The two wires as a slave sees them, free of any part: looks at SCL and SDA become events, ticks and power events wait for
// the end of a pulse, and a token says whether SDA is to be pulled. Nothing here touches an image or a memory, so SDA is
// turned before an event is done.
#![tactic(auto)]

pub mod packed;

ghost use Rattle.std.specs.Prelude.{◌≡◌, cond};
ghost use Rattle.pins_levels.specs.Wave.{seen_of};
ghost use Rattle.pins_levels.specs.Look.{start_of, first_of, left, stayed, clock_of, fallen, risen, turned, look_of};
ghost use Rattle.pins_levels.specs.Look.{driven_of, asks, hand_of};

// What one look sees. SDA is read between two readings of SCL: SCL is low; it was high and fell meanwhile, so that SDA may
// be the next clock's; it was high both times, and SDA had this level.
#[derive(Clone, Copy, Debug, PartialEq, Eq)]
pub enum Seen {
    Low,
    Fell,
    High(bool),
}

// What is known between two looks.
// Stays (plain): its flags are levels and what the device does, and none of them says whether another field counts.
#[derive(Clone, Copy)]
pub struct Token {
    // SCL was high at the last look
    pub scl: bool,
    // SDA at the last look that saw SCL high
    pub sda: bool,
    // SCL was seen to rise, and neither its fall nor a Start or Stop was seen since, nor was its Clock taken early
    pub pulse: bool,
    // the device pulls SDA
    pub pulling: bool,
    // whether the device pulls the line of the next Clock; of the one after it, if the next is low, and if it is high
    pub next: bool,
    pub low: bool,
    pub high: bool,
    // a tick or power event that waits for the pulse's end, or 8
    // Stays (C): C's word has four bits for an event, and the five `fm3130_pins_` functions give back all sixteen of their values
    pub waiting: u8,
    // 0, or why the device has left the bus
    // Stays (C): C's word has a byte for it, and every value comes back
    pub number: u8,
    // what the part answers as it stands, for its other pins
    pub answer: u8,
}

// The token, and up to three events that are to be done now, in this order; 8 is none.
// Stays (plain): each of the three has a place of its own in C's word; as an array they would be a list of any length in `specs`
#[derive(Clone, Copy)]
pub struct Due {
    pub token: Token,
    pub first: u8,
    pub second: u8,
    pub third: u8,
}

// No event.
pub const NONE: u8 = 8;

// What is answered before the part was asked: the line is high, and no pin is pulled.
pub const UNASKED: u8 = 1;

// Why the device has left the bus: an event was handed in that is no tick and no power event; a look came too late.
pub const UNKNOWN: u8 = 3;

pub const LATE: u8 = 0x80;

// The three readings of a look.
pub fn read(scl: bool, sda: bool, again: bool) -> Seen
    ensures { result ≡ seen_of scl sda again }
{
    match (scl, again) {
        (true, true) => Seen::High(sda),
        (true, false) => Seen::Fell,
        (false, _) => Seen::Low,
    }
}

// A Clock of a level.
fn clock(sda: bool) -> u8
    ensures { result ≡ clock_of sda }
{
    if sda { 3 } else { 2 }
}

// A token with these levels and nothing else.
fn start(scl: bool, sda: bool) -> Token
    ensures { result ≡ start_of scl sda }
{
    Token {
        scl,
        sda,
        pulse: false,
        pulling: false,
        next: false,
        low: false,
        high: false,
        waiting: NONE,
        number: 0,
        answer: UNASKED,
    }
}

// The token of the first look, before the lines are asked: a pulse under way is not counted, and SDA is let go.
pub fn first(v: Seen) -> Token
    ensures { result ≡ first_of v }
{
    match v {
        Seen::Low | Seen::Fell => start(false, false),
        Seen::High(sda) => start(true, sda),
    }
}

// Leaves the bus under a number: SDA is let go, and nothing waits.
pub fn leave(t: Token, number: u8) -> Token
    ensures { result ≡ left t number }
{
    Token {
        pulse: false,
        pulling: false,
        waiting: NONE,
        number,
        ..t
    }
}

// Nothing is to be done.
pub fn stay(t: Token) -> Due
    ensures { result ≡ stayed t }
{
    Due {
        token: t,
        first: NONE,
        second: NONE,
        third: NONE,
    }
}

// The line after a Clock of the level that the pulse had.
fn after(t: Token) -> bool
    ensures { result ≡ cond t.sda t.high t.low }
{
    if t.sda { t.high } else { t.low }
}

// SCL has fallen: SDA is turned for the next clock by what was known before. An open pulse was a Clock; what waited
// comes after it.
fn fall(t: Token) -> Due
    ensures { result ≡ fallen t }
{
    if !t.pulse {
        return stay(Token {
            scl: false,
            pulling: t.next,
            ..t
        });
    }
    let token = Token {
        scl: false,
        pulse: false,
        pulling: after(t),
        waiting: NONE,
        ..t
    };
    Due {
        first: clock(t.sda),
        second: t.waiting,
        ..stay(token)
    }
}

// SCL has risen: a pulse begins, with this level.
fn rise(t: Token, sda: bool) -> Due
    ensures { result ≡ risen t sda }
{
    stay(Token {
        scl: true,
        sda,
        pulse: true,
        ..t
    })
}

// SDA has turned while SCL is high: Stop where it rose, Start where it fell. The pulse is no Clock, and what waited comes
// before.
fn turn(t: Token, sda: bool) -> Due
    ensures { result ≡ turned t sda }
{
    let token = Token {
        scl: true,
        sda,
        pulse: false,
        waiting: NONE,
        ..t
    };
    Due {
        first: t.waiting,
        second: if sda { 1 } else { 0 },
        ..stay(token)
    }
}

// One look. A whole pulse that nobody looked at, come and gone, is late.
#[tactic(auto, unfolding(crate::specs::Look::look_of))]
pub fn look(t: Token, v: Seen) -> Due
    ensures { result ≡ look_of t v }
{
    if t.number != 0 {
        return stay(t);
    }
    match (t.scl, v) {
        (true, Seen::Low | Seen::Fell) => fall(t),
        (true, Seen::High(sda)) if sda == t.sda => stay(t),
        (true, Seen::High(sda)) => turn(t, sda),
        (false, Seen::Low) => stay(t),
        (false, Seen::Fell) => stay(leave(t, LATE)),
        (false, Seen::High(sda)) => rise(t, sda),
    }
}

// SDA was turned, if it had to be, with a reading of SCL before that and one after: both must have seen it low.
#[tactic(auto, unfolding(crate::specs::Look::driven_of))]
pub fn driven(pulled: bool, t: Token, before: bool, after: bool) -> Token
    ensures { result ≡ driven_of pulled t (record { before = before; after = after }) }
{
    if t.number == 0 && pulled != t.pulling && (before || after) {
        return leave(t, LATE);
    }
    t
}

// The lines that the part tells. While SCL is high SDA stays as it is.
pub fn asked(t: Token, next: bool, low: bool, high: bool, answer: u8) -> Token
    ensures { result ≡ asks t next low high answer }
{
    Token {
        pulling: if t.scl { t.pulling } else { next },
        next,
        low,
        high,
        answer,
        ..t
    }
}

// A tick or a power event is handed in. With no pulse open it is done at once; else it waits. Where one waits already, the
// master hangs in the pulse. A byte's eighth Clock must wait for its fall, since a Stop may still cut the byte, so the older
// event goes before it; any other Clock is taken now, and both events after it.
#[tactic(auto, unfolding(crate::specs::Look::hand_of))]
pub fn hand(t: Token, event: u8, eighth: bool) -> Due
    ensures { result ≡ hand_of t event eighth }
{
    if t.number != 0 {
        return stay(t);
    }
    if !matches!(event, 4..=7) {
        return stay(leave(t, UNKNOWN));
    }
    if !t.pulse {
        return Due {
            first: event,
            ..stay(t)
        };
    }
    let hung = Token {
        waiting: event,
        ..t
    };
    if t.waiting >= NONE {
        return stay(hung);
    }
    if eighth {
        return Due {
            first: t.waiting,
            ..stay(hung)
        };
    }
    let token = Token {
        pulse: false,
        waiting: NONE,
        ..t
    };
    Due {
        first: clock(t.sda),
        second: t.waiting,
        third: event,
        ..stay(token)
    }
}
