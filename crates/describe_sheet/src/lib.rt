// Time sheets in words, line by line: text put into a line that is lent, as in `text_line`.
#![tactic(auto)]

pub mod card_facts; // the lines of a card file
pub mod code_words; // a claim and its code
pub mod comments; // what a sheet says of a slot, as comments of a card file
pub mod doubts; // codes far from those that the card had
mod parts; // what several lines have
pub mod refusals; // why a sheet is refused
