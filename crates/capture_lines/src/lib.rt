// The lines of a capture, as definitions in specs/; and the type of what ends one early.
#![tactic(auto)]

use ticks::Stamp;

// What ends a capture early.
#[derive(Clone, Copy)]
pub enum CaptureFault {
    // 32: the earlier stamp, and the one that goes back from it.
    WentBack(Stamp, Stamp),
    // 33: kind 01 after this stamp, the first.
    AdvanceFirst(Stamp),
    // 33: the earlier stamp, and the one after which kind 01 stands.
    AdvanceKind(Stamp, Stamp),
    // 31: a byte that is no kind, after this stamp.
    NoKind(Stamp, u8),
    // The file ends after so many bytes of a stamp.
    StampCut(usize),
    // It ends after this stamp.
    NoRecord(Stamp),
    // It ends within the record after this stamp: its kind, how many of its bytes there are, and how many it has.
    RecordCut(Stamp, u8, usize, usize),
}
