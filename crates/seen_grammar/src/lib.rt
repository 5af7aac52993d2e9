// Files of seen times: what a line says, and what a reading gives. The grammar and the rules are in specs.
#![tactic(auto)]

use readiness::Moments;
use times::ClaimedTime;

// A line: the slot that it names, and when the card was first seen to answer there.
#[derive(Clone, Copy)]
pub struct SeenLine {
    pub slot: u64,
    pub time: ClaimedTime,
}

// Bytes that are no line, with the slot, the number and the unit as far as they were read.
#[derive(Clone, Copy)]
pub struct NoLine {
    pub so_far: SeenLine,
}

// Why a file is refused, or that it isn't.
#[derive(Clone, Copy)]
pub enum SeenRefusal {
    // Kept: README's entry `seen::read` gives the refusal, the line and the times.
    NoRefusal,
    Layout,
    NoSlot,
    NamedBefore,
    TooLong,
}

// What a reading gives: the refusal with its line, counted from 1, and no times; or 0 and the seen times.
#[derive(Clone, Copy)]
pub struct SeenRead {
    pub refusal: SeenRefusal,
    pub line: usize,
    pub times: Moments,
}
