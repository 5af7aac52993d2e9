// What ends a capture early, if anything does, and where.
// Kept in this file: long parameter lists, since each function takes what is in hand, from places that share no struct.
#![tactic(auto, unfolding(capture_lines::specs::Faults::forward_fault, capture_lines::specs::Faults::later_fault, capture_lines::specs::Faults::kind_fault, capture_lines::specs::Faults::end_fault, capture_lines::specs::Faults::in_hand, capture_lines::specs::Faults::fault_byte))]

ghost use Rattle.std.specs.Prelude.{◌≡◌};
ghost use Rattle.capture_lines.specs.Faults.{forward_fault, later_fault, kind_fault, end_fault, in_hand, fault_byte};

use capture_lines::CaptureFault;
use ticks::{Stamp, difference, went_back};

// At a kind byte after a stamp that goes forward: 33, with the stamps that it names, then 31. A record of no kind has size 0.
fn forward_fault(advance: CaptureFault, stamp: Stamp, kind: u8, size: usize) -> Option<CaptureFault>
    ensures { result ≡ forward_fault advance stamp kind size }
{
    if kind == 1 {
        Some(advance)
    } else if size == 0 {
        Some(CaptureFault::NoKind(stamp, kind))
    } else {
        None
    }
}

// At a kind byte with an earlier stamp: 32 first.
fn later_fault(earlier: Stamp, stamp: Stamp, kind: u8, size: usize) -> Option<CaptureFault>
    ensures { result ≡ later_fault earlier stamp kind size }
{
    if went_back(difference(earlier, stamp)) {
        Some(CaptureFault::WentBack(earlier, stamp))
    } else {
        forward_fault(CaptureFault::AdvanceKind(earlier, stamp), stamp, kind, size)
    }
}

// At a kind byte; the first stamp has no earlier one.
pub fn kind_fault(
    earlier: Option<Stamp>,
    stamp: Stamp,
    kind: u8,
    size: usize,
) -> Option<CaptureFault>
    ensures { result ≡ kind_fault earlier stamp kind size }
{
    match earlier {
        Some(earlier) => later_fault(earlier, stamp, kind, size),
        None => forward_fault(CaptureFault::AdvanceFirst(stamp), stamp, kind, size),
    }
}

// At the end of the file: so many bytes of the record after the stamp are in hand, or else so many of the stamp.
pub fn end_fault(
    stamp: Stamp,
    stamped: usize,
    kind: u8,
    count: usize,
    size: usize,
) -> Option<CaptureFault>
    ensures { result ≡ end_fault stamp stamped kind count size }
{
    if count > 0 {
        Some(CaptureFault::RecordCut(stamp, kind, count, size))
    } else if stamped == 0 {
        None
    } else if stamped < 4 {
        Some(CaptureFault::StampCut(stamped))
    } else {
        Some(CaptureFault::NoRecord(stamp))
    }
}

// How many bytes before the next one its own byte is.
fn in_hand(fault: Option<CaptureFault>) -> usize
    ensures { result ≡ in_hand fault }
{
    match fault {
        None => 0,
        Some(CaptureFault::WentBack(_, _)) => 4,
        Some(CaptureFault::AdvanceFirst(_)) => 0,
        Some(CaptureFault::AdvanceKind(_, _)) => 0,
        Some(CaptureFault::NoKind(_, _)) => 0,
        Some(CaptureFault::StampCut(count)) => count,
        Some(CaptureFault::NoRecord(_)) => 4,
        Some(CaptureFault::RecordCut(_, _, count, _)) => count,
    }
}

// Its byte of the file, where the next byte is this one.
pub fn fault_byte(next: u64, fault: Option<CaptureFault>) -> u64
    ensures { result ≡ fault_byte next fault }
{
    next.saturating_sub(in_hand(fault) as u64)
}
