// The commands that need no card.
#![tactic(auto)]

mod shown; // a file that is shown item by item
pub mod show; // `otsnebura show`
pub mod show_capture; // `otsnebura show --capture`
pub mod pack; // `otsnebura pack`
pub mod message; // `otsnebura message`
