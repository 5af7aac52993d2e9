// What ends a capture early: as a message, and as a line among those of the entries.
// Kept in this file: long parameter lists, since each function takes what its text names, from places that share no struct.
#![tactic(auto, using(text_line::proofs::Putting::putting), unfolding(text_line::specs::Text::text_if, capture_lines::specs::Faults::apart_text, capture_lines::specs::Faults::went_back_text, capture_lines::specs::Faults::advance_first_text, capture_lines::specs::Faults::advance_kind_text, capture_lines::specs::Faults::no_kind_text, capture_lines::specs::Faults::stamp_cut_text, capture_lines::specs::Faults::no_record_text, capture_lines::specs::Faults::record_cut_text, capture_lines::specs::Faults::fault_text, capture_lines::specs::Faults::fault_message, capture_lines::specs::Faults::went_back_line, capture_lines::specs::Faults::advance_kind_line, capture_lines::specs::Faults::no_kind_line, capture_lines::specs::Faults::stamp_cut_line, capture_lines::specs::Faults::no_record_line, capture_lines::specs::Faults::record_cut_line, capture_lines::specs::Faults::fault_line))]

ghost use Rattle.std.specs.Prelude.{◌≡◌};
ghost use Rattle.text_line.specs.Page.{put};
ghost use Rattle.capture_lines.specs.Faults.{apart_text, went_back_text, advance_first_text, advance_kind_text, no_kind_text, stamp_cut_text, no_record_text, record_cut_text, fault_text, fault_message, went_back_line, advance_kind_line, no_kind_line, stamp_cut_line, no_record_line, record_cut_line, fault_line};

use crate::capture_words::put_place;
use crate::stamp_words::{put_span, put_stamp};
use capture_lines::CaptureFault;
use text_line::Page;
use ticks::{Stamp, difference, ticks_number};

// ---- What is wrong, and what was expected

// How far a stamp goes back from the earlier one, and forward.
fn put_apart(page: &mut Page<'_>, earlier: Stamp, stamp: Stamp)
    ensures { page.new ≡ put (apart_text earlier stamp) page.old }
{
    let forward = u64::from(ticks_number(difference(earlier, stamp)));
    put_span(page, difference(stamp, earlier));
    page.put_named(b" back or ", forward);
    page.put_text(b" ticks forward");
}

fn put_went_back(page: &mut Page<'_>, earlier: Stamp, stamp: Stamp)
    ensures { page.new ≡ put (went_back_text earlier stamp) page.old }
{
    page.put_text(b"32: the recorder went back: ");
    put_stamp(page, earlier);
    page.put_text(b", then ");
    put_stamp(page, stamp);
    page.put_text(b", which is ");
    put_apart(page, earlier, stamp);
    page.put_text(b": expected less than 2147483648 ticks (8589934592 ns) forward");
}

fn put_advance_first(page: &mut Page<'_>, stamp: Stamp)
    ensures { page.new ≡ put (advance_first_text stamp) page.old }
{
    page.put_text(b"33: kind 01h (advance) after ");
    put_stamp(page, stamp);
    page.put_text(b", the first: an advance comes from the stamps alone; expected 02h to 0Dh");
}

fn put_advance_kind(page: &mut Page<'_>, earlier: Stamp, stamp: Stamp)
    ensures { page.new ≡ put (advance_kind_text earlier stamp) page.old }
{
    let by = difference(earlier, stamp);
    page.put_text(b"33: kind 01h (advance) after ");
    put_stamp(page, stamp);
    page.put_text(b", ");
    put_span(page, by);
    page.put_text(b" after ");
    put_stamp(page, earlier);
    page.put_text(b": an advance comes from the stamps alone; expected 02h to 0Dh");
}

fn put_no_kind(page: &mut Page<'_>, stamp: Stamp, kind: u8)
    ensures { page.new ≡ put (no_kind_text stamp kind) page.old }
{
    page.put_text(b"31: ");
    page.put_hex(2, kind as u64);
    page.put_text(b"h after ");
    put_stamp(page, stamp);
    page.put_text(b" is no kind: expected 02h to 0Dh");
}

fn put_stamp_cut(page: &mut Page<'_>, count: usize)
    ensures { page.new ≡ put (stamp_cut_text count) page.old }
{
    page.put_named(
        b"the stamp is cut off: expected 4 bytes, and there are ",
        count as u64,
    );
}

fn put_no_record(page: &mut Page<'_>, stamp: Stamp)
    ensures { page.new ≡ put (no_record_text stamp) page.old }
{
    put_stamp(page, stamp);
    page.put_text(b" is without its record: expected a kind, 02h to 0Dh");
}

fn put_record_cut(page: &mut Page<'_>, stamp: Stamp, kind: u8, count: usize, size: usize)
    ensures { page.new ≡ put (record_cut_text stamp kind count size) page.old }
{
    page.put_text(b"the record of kind ");
    page.put_hex(2, kind as u64);
    page.put_text(b"h after ");
    put_stamp(page, stamp);
    page.put_named(b" is cut off: expected ", size as u64);
    page.put_named(b" bytes, and there are ", count as u64);
}

fn put_fault(page: &mut Page<'_>, fault: Option<CaptureFault>)
    ensures { page.new ≡ put (fault_text fault) page.old }
{
    match fault {
        None => {}
        Some(CaptureFault::WentBack(earlier, stamp)) => put_went_back(page, earlier, stamp),
        Some(CaptureFault::AdvanceFirst(stamp)) => put_advance_first(page, stamp),
        Some(CaptureFault::AdvanceKind(earlier, stamp)) => put_advance_kind(page, earlier, stamp),
        Some(CaptureFault::NoKind(stamp, kind)) => put_no_kind(page, stamp, kind),
        Some(CaptureFault::StampCut(count)) => put_stamp_cut(page, count),
        Some(CaptureFault::NoRecord(stamp)) => put_no_record(page, stamp),
        Some(CaptureFault::RecordCut(stamp, kind, count, size)) => put_record_cut(
            page, stamp, kind, count, size,
        ),
    }
}

// At its byte of the file.
pub fn put_fault_message(page: &mut Page<'_>, offset: u64, fault: Option<CaptureFault>)
    ensures { page.new ≡ put (fault_message offset fault) page.old }
{
    page.put_named(b"byte ", offset);
    page.put_text(b": ");
    put_fault(page, fault);
}

// ---- As a line among those of the entries

fn put_went_back_line(page: &mut Page<'_>, offset: u64, earlier: Stamp, stamp: Stamp)
    ensures { page.new ≡ put (went_back_line offset earlier stamp) page.old }
{
    put_place(page, offset, stamp);
    page.put_text(b"the recorder went back, after ");
    put_stamp(page, earlier);
    page.put_text(b": the capture ends here");
}

fn put_advance_kind_line(page: &mut Page<'_>, offset: u64, stamp: Stamp)
    ensures { page.new ≡ put (advance_kind_line offset stamp) page.old }
{
    put_place(page, offset, stamp);
    page.put_text(b"kind 01h (advance): the capture ends here");
}

fn put_no_kind_line(page: &mut Page<'_>, offset: u64, stamp: Stamp, kind: u8)
    ensures { page.new ≡ put (no_kind_line offset stamp kind) page.old }
{
    put_place(page, offset, stamp);
    page.put_text(b"unknown kind ");
    page.put_hex(2, kind as u64);
    page.put_text(b"h (kinds are 02h to 0Dh): the capture is broken here");
}

fn put_stamp_cut_line(page: &mut Page<'_>, offset: u64, count: usize)
    ensures { page.new ≡ put (stamp_cut_line offset count) page.old }
{
    page.put_column(offset);
    page.put_named(b"  incomplete stamp: the file has ", count as u64);
    page.put_text(b" of its 4 bytes");
}

fn put_no_record_line(page: &mut Page<'_>, offset: u64, stamp: Stamp)
    ensures { page.new ≡ put (no_record_line offset stamp) page.old }
{
    put_place(page, offset, stamp);
    page.put_text(b"a stamp without its record: the file ends here");
}

fn put_record_cut_line(
    page: &mut Page<'_>,
    offset: u64,
    stamp: Stamp,
    kind: u8,
    count: usize,
    size: usize,
)
    ensures { page.new ≡ put (record_cut_line offset stamp kind count size) page.old }
{
    put_place(page, offset, stamp);
    page.put_text(b"incomplete record of kind ");
    page.put_hex(2, kind as u64);
    page.put_named(b"h: the file has ", count as u64);
    page.put_named(b" of its ", size as u64);
    page.put_text(b" bytes");
}

pub fn put_fault_line(page: &mut Page<'_>, offset: u64, fault: Option<CaptureFault>)
    ensures { page.new ≡ put (fault_line offset fault) page.old }
{
    match fault {
        None => {}
        Some(CaptureFault::WentBack(earlier, stamp)) => put_went_back_line(
            page, offset, earlier, stamp,
        ),
        Some(CaptureFault::AdvanceFirst(stamp)) => put_advance_kind_line(page, offset, stamp),
        Some(CaptureFault::AdvanceKind(earlier, stamp)) => put_advance_kind_line(
            page, offset, stamp,
        ),
        Some(CaptureFault::NoKind(stamp, kind)) => put_no_kind_line(page, offset, stamp, kind),
        Some(CaptureFault::StampCut(count)) => put_stamp_cut_line(page, offset, count),
        Some(CaptureFault::NoRecord(stamp)) => put_no_record_line(page, offset, stamp),
        Some(CaptureFault::RecordCut(stamp, kind, count, size)) => put_record_cut_line(
            page, offset, stamp, kind, count, size,
        ),
    }
}
