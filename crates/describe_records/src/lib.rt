// Records in words: text put into a line that is lent, as in `text_line`.
#![tactic(auto)]

pub mod record_words; // a record, a message
