// A trace file that is fed to the bench.
#![tactic(auto)]

pub mod memory; // a card, and what its bench runs on
pub mod session; // the bench, from one call to the next
pub mod flow; // what is read, and what waits to be written
pub mod turns; // pieces are read and fed
pub mod trace_source; // a trace, and the lines of its records
pub mod ending; // the end of a run in words
