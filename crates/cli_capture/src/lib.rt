// Capture files for the command.
#![tactic(auto)]

pub mod entries; // a capture, taken entry by entry
pub mod complaint; // what is wrong with one
