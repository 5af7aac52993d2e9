// Cards for the command: read from a file, shown, and refused.
#![tactic(auto)]

pub mod card_file; // a card from its file
pub mod refusal; // why a card's set-up is refused
pub mod card_shown; // `otsnebura card`
