// The lateness report in words: text put into a line that is lent, as in `text_line`.
#![tactic(auto)]

pub mod csv; // rows of comma-separated values
pub mod refusals; // why a file of seen times is refused
pub mod rows; // a slot's line of the table
pub mod signed; // differences with their sign
pub mod totals; // the totals of a list
