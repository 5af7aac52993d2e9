// Files of seen times (02, Q-7): the reader.
#![tactic(auto)]

mod layout; // a line, read from its bytes
mod reading; // the file

pub use layout::line_of;
pub use reading::read;
