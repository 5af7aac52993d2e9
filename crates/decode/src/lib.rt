// Records gathered from a call's trace; answers put, and bytes carried to the next call.
#![tactic(auto)]

pub mod decoding; // a record from its bytes
pub mod gathering; // records from a call's trace, answers, and the bytes carried

use records::Record;

// The record that stands next, and how many bytes it has.
#[derive(Clone, Copy)]
pub struct Found {
    pub record: Record,
    pub size: usize,
}

// The end of a call: its number, and how many bytes are carried.
// Kept: the number is the papers' (0, 30 or 31), which feed's theorem gives with the count in each case.
#[derive(Clone, Copy)]
pub struct Ending {
    pub number: u8,
    pub count: usize,
}
