// Time sheets with their unit named (02, Q-1): the reader, and what people ask about a sheet.
#![tactic(auto)]

mod layout; // a line, read from its bytes
mod reading; // the sheet
mod doubts; // where the unit may be wrong

pub use doubts::doubt;
pub use layout::{fault_in, line_of, number_in, number_up_to, unit_at, unit_in};
pub use reading::{line_naming, place_after, read};
