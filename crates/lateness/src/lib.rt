// The lateness report (02, Q-7): per slot the seen time minus the bench time in signed nanoseconds, and totals over a list of these.
#![tactic(auto)]

mod slots; // the difference of a slot
mod summing; // the totals of a list

pub use slots::{bench_time, difference, number_of, of_slot, value_of};
pub use summing::{refusal, totals};

// The difference of a slot: none, in nanoseconds and negative if early, or refused.
// Kept: these are the three answers of the paper; an Option of a Result names them no better.
#[derive(Clone, Copy)]
pub enum Lateness {
    NoDifference,
    Of(i64),
    Outside,
}

// The totals of a list of differences; `number` is 0, or 34 or 35 with all totals 0.
// Kept: `totals` is an entry, which answers the papers' number beside totals that are 0 then.
#[derive(Clone, Copy)]
pub struct Report {
    pub number: u8,
    pub early: u32,
    pub on_time: u32,
    pub late: u32,
    pub least: i64,
    pub greatest: i64,
    pub sum: i64,
}
