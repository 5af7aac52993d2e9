// A card's text: the types of a reading, and in specs/ the grammar: which bytes are a card, and which card.
#![tactic(auto)]

use readiness::{Setup, Slot};
use text_fields::Numeral;

// Why a line or a text is refused.
#[derive(Clone, Copy)]
pub enum Reason {
    // A word other than those that the grammar has there.
    UnknownWord,
    // No number, or one with too few or too many digits.
    BadNumber,
    // The line ends before the fact does.
    LineTooShort,
    // Something stands after the fact.
    LineTooLong,
    // A number that isn't allowed there.
    OutOfRange,
    // A slot or a word before `slots`.
    SlotsFirst,
    // A fact that an earlier line has.
    NamedTwice,
    // `slots`, `queue`, `bus` or `port` is missing at the end.
    Missing,
    // Other than 2,048 words are lent.
    NoRoom,
}

// A fact with one number: how the number is written, and its limits.
#[derive(Clone, Copy)]
pub struct Fact {
    pub form: Numeral,
    pub low: u32,
    pub high: u32,
}

// What lines have named: slots, queue, bus and port, the slots' entries, and 64 default words for each of 32 slots.
#[derive(Clone, Copy)]
pub struct Named {
    pub slots: Option<usize>,
    pub queue: Option<usize>,
    pub bus: Option<u8>,
    pub port: Option<u16>,
    pub entries: [Option<Slot>; 32],
    pub words: [Option<u32>; 2048],
}

// A card: how many lines its text has, its set-up, and how many cells its queue has.
#[derive(Clone, Copy)]
pub struct Card {
    pub lines: usize,
    pub setup: Setup,
    pub queue: usize,
}

// Why a text is no card: the reason, and the line that is refused, counted from 1, or the last line where the text as a whole is; and
// the set-up and the queue length as far as they were read, where what isn't named is 0.
#[derive(Clone, Copy)]
pub struct CardError {
    pub line: usize,
    pub reason: Reason,
    pub setup: Setup,
    pub queue: usize,
}
