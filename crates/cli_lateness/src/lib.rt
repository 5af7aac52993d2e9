// The lateness report for the command (02, Q-7).
#![tactic(auto)]

pub mod seen_file; // a file of seen times
pub mod table; // the table of a capture, and totals
pub mod rows; // the lines and rows of several captures
