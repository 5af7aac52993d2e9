// A state as bytes, in a layout that the case stream and the exports share.
#![tactic(auto)]

pub mod numbers; // numbers in byte slices, low byte first
pub mod state; // the port and the slot statuses
