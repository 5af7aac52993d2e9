// A capture file that is replayed on the bench.
#![tactic(auto)]

pub mod counting; // how many records have begun
pub mod session; // the bench and the replay, from one call to the next
pub mod capture_source; // a capture, and the lines of its answers
pub mod ending; // the end of a replay in words
