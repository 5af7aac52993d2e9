// Time sheets: what a line says, and what a reading gives. The grammar and the rules are in specs.
#![tactic(auto)]

use readiness::Setup;
use times::{ClaimedTime, Unit};

// A line of a sheet: the slot that it names, and its four times as they are claimed.
#[derive(Clone, Copy)]
pub struct SheetLine {
    pub slot: u64,
    pub reset: ClaimedTime,
    pub dl_up: ClaimedTime,
    pub flr: ClaimedTime,
    pub d3hot: ClaimedTime,
}

// Digits at a place: how many there are, and the number that they are.
#[derive(Clone, Copy)]
pub struct Digits {
    pub count: usize,
    pub number: u64,
}

// A number at a place of a line: whether one stands there with a space after it, the number, and the place after the space; where
// it doesn't fit, the place of the first byte that is wrong.
#[derive(Clone, Copy)]
pub struct NumberRead {
    // Kept: `next` has a value in both cases, where to read on or the wrong byte, and specs/Layout.line_from reads on in both.
    pub fits: bool,
    pub number: u64,
    pub next: usize,
}

// The same of a unit and the byte 0Ah after it.
#[derive(Clone, Copy)]
pub struct UnitRead {
    // Kept: `next` has a value in both cases, as with a number.
    pub fits: bool,
    pub unit: Unit,
    pub next: usize,
}

// The line in front of a text: whether there is one, what it says, and how many bytes it has.
#[derive(Clone, Copy)]
pub struct LineRead {
    // Kept: `sheet_text` shows a refused line by its slot and its times also where it does not fit, and they are 0 then, as
    // specs/Layout.no_line says.
    pub fits: bool,
    pub line: SheetLine,
    pub size: usize,
}

// What a reading gives: 0, or a refusal with its line, counted from 1; and the set-up.
#[derive(Clone, Copy)]
pub struct SheetRead {
    // Kept: README's entry `sheet::read` gives a number, the line and the set-up; 40 to 43 are the papers' numbers.
    pub number: u8,
    pub line: usize,
    pub setup: Setup,
}

// Where a line departs from the layout: the field, counted from 0, and the place of the first byte that is wrong.
#[derive(Clone, Copy)]
pub struct Fault {
    pub field: usize,
    pub place: usize,
}

// What is to be said of a code that is far from the one that was there before: a question where the unit may be wrong, a note where
// just one of the times is 0.
#[derive(Clone, Copy)]
pub enum Doubt {
    AskUnit,
    OneIsZero,
}
