// The score over several captures (02, Q-7): the differences of their slots in a lent list, each with its slot, and the totals of all and of
// a slot.
#![tactic(auto)]

mod collecting; // the differences of a capture, after those of earlier ones
mod choosing; // the differences of one slot, and totals

pub use choosing::{choose, total, total_of_capture};
pub use collecting::{collect, difference_at, nothing_collected};

// How many differences were collected, 9,001 for more than 9,000; and whether one was refused.
// Kept: two answers, of which neither stands for the other; the entries lend the lists beside them.
#[derive(Clone, Copy)]
pub struct Collected {
    pub count: usize,
    pub outside: bool,
}
