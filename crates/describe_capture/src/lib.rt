// A capture in words, line by line: text put into a line that is lent, as in `text_line`.
#![tactic(auto)]

pub mod stamp_words; // stamps, differences and advances
pub mod capture_words; // the lines of a capture, and its end
pub mod finding; // what ends a capture early
pub mod fault_words; // that in words
