// The thirteen records run: code on the device by value and the lent slices.
#![tactic(auto)]

pub mod answering; // an answer's bytes
pub mod kinds; // what a slot holds
pub mod routing; // where a configuration request goes
pub mod requests; // records that touch one slot
pub mod port; // records that touch the root port alone
pub mod card; // records that touch every slot
pub mod soundness; // the test for refusal 5, but for the carried bytes
