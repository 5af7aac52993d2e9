// The bench in words, line by line: text put into a line that is lent, as in `text_line`.
#![tactic(auto)]

pub mod state_words; // the state of the bench
pub mod card_words; // a card
