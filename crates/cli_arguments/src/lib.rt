// The command's arguments, and how it ends.
#![tactic(auto)]

pub mod outcome; // how a run of the program ends
pub mod arguments; // words among the arguments
