// A trace in words, line by line: text put into a line that is lent, as in `text_line`.
#![tactic(auto)]

pub mod answer_words; // an answer
pub mod trace_words; // the lines of a trace, and its end
