// What the commands about time sheets print (02, Q-1), each output as one text.
#![tactic(auto)]

mod lines; // a line about a file
mod cards; // a card as a CARD file, with comments
mod doubts; // where the unit may be wrong
mod refused; // why a sheet is refused
mod codes; // the code of one time

pub use cards::put_card;
pub use codes::{put_code_lines, put_too_long_line};
pub use doubts::put_doubts;
pub use refused::put_refused;
