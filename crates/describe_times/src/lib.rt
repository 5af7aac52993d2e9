// Times in words: text put into a line that is lent, as in `text_line`.
#![tactic(auto)]

pub mod time_words; // claims, and times in nanoseconds
