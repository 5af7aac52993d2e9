// The state of a replay: the stamp in hand, the advances due, and whether it matches the port.
#![tactic(auto)]

pub mod advancing; // the advances that are due
pub mod matching; // whether the state of a replay matches the port
pub mod stamps; // the bytes of a stamp

use times::Nanos;

// The advances that are due: none, one or two.
// Kept: this is a list of at most two, and no Option.
#[derive(Clone, Copy)]
pub enum Due {
    Nothing,
    One(Nanos),
    Two(Nanos, Nanos),
}
