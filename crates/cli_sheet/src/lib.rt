// Time sheets for the command (02, Q-1).
#![tactic(auto)]

pub mod code_shown; // `otsnebura code`
pub mod sheet_shown; // `otsnebura sheet`
