// No code but the type: what happens in a record, one thing after the other, each at its own moment, and what a write starts.
#![tactic(auto)]

// What a configuration write that is done starts, or asks for in vain.
#[derive(Clone, Copy)]
pub enum Note {
    Plain,
    // Bit 15 of 78h, at a slot that is FLR capable and at one that isn't.
    FlrStarted,
    NoFlr,
    // PowerState becomes 3.
    EntersD3hot,
    // PowerState goes from 3 to 0, with No_Soft_Reset 0 and 1.
    WakesReset,
    WakesKept,
}
