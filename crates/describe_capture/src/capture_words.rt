// The lines of a capture that is replayed or shown, and its end.
// Kept in this file: long parameter lists, since each function takes what its text names, from places that share no struct.
#![tactic(auto, using(text_line::proofs::Putting::putting), unfolding(text_line::specs::Text::text_if, capture_lines::specs::Captures::place_text, capture_lines::specs::Captures::replayed_text, capture_lines::specs::Captures::advanced_text, capture_lines::specs::Captures::in_hand_text, capture_lines::specs::Captures::replay_end_text, capture_lines::specs::Captures::since_text, capture_lines::specs::Captures::entry_text, capture_lines::specs::Captures::capture_totals_text))]

ghost use Rattle.std.specs.Prelude.{◌≡◌};
ghost use Rattle.text_line.specs.Page.{put};
ghost use Rattle.capture_lines.specs.Captures.{place_text, replayed_text, advanced_text, in_hand_text, replay_end_text, since_text, entry_text, capture_totals_text};

use crate::stamp_words::{
    advance_at, put_advance, put_clock_column, put_difference, put_stamp_column,
};
use describe_records::record_words::put_record;
use describe_trace::answer_words::put_answer;
use describe_trace::trace_words::put_number;
use records::Record;
use text_line::Page;
use ticks::{Stamp, difference};
use times::Nanos;

// A byte offset, and the stamp of the entry there.
pub fn put_place(page: &mut Page<'_>, offset: u64, stamp: Stamp)
    ensures { page.new ≡ put (place_text offset stamp) page.old }
{
    page.put_column(offset);
    page.put_text(b"  ");
    put_stamp_column(page, stamp);
    page.put_text(b"  ");
}

// ---- Replayed

// An entry's record: the byte offset of its kind, its stamp, the clock after it, the record and its answer.
pub fn put_replayed(
    page: &mut Page<'_>,
    offset: u64,
    stamp: Stamp,
    clock: Nanos,
    item: Record,
    answer: &[u8],
)
    ensures { page.new ≡ put (replayed_text offset stamp clock item answer.now) page.old }
{
    put_place(page, offset, stamp);
    put_clock_column(page, clock);
    page.put_text(b"  ");
    put_record(page, item);
    put_answer(page, item, answer);
}

// An advance of a stamp, at an index among them: the byte offset of the stamp, the stamp, the clock after it, the advance and its answer.
pub fn put_advanced(
    page: &mut Page<'_>,
    offset: u64,
    earlier: Stamp,
    stamp: Stamp,
    k: usize,
    clock: Nanos,
    answer: &[u8],
)
    ensures { page.new ≡ put (advanced_text offset earlier stamp k clock answer.now) page.old }
{
    let by = difference(earlier, stamp);
    put_place(page, offset, stamp);
    put_clock_column(page, clock);
    page.put_text(b"  ");
    put_advance(page, by, k);
    put_answer(page, Record::Advance(advance_at(by, k)), answer);
}

// What is in hand at the end: an incomplete record, an incomplete stamp, or a stamp without its record.
fn put_in_hand(page: &mut Page<'_>, carried: usize, stamped: usize)
    ensures { page.new ≡ put (in_hand_text carried stamped) page.old }
{
    if carried > 0 {
        page.put_text(b", the last record is incomplete");
    } else if stamped != 0 {
        if stamped < 4 {
            page.put_named(b", the last stamp has ", stamped as u64);
            page.put_text(b" of 4 bytes");
        } else {
            page.put_text(b", the last stamp is without its record");
        }
    }
}

// The end of a replay: the last number, bytes consumed, the entries' records that ran, advances, and how many bytes of a record and of a
// stamp are in hand.
pub fn put_replay_end(
    page: &mut Page<'_>,
    number: u8,
    consumed: u64,
    records: u64,
    advances: u64,
    carried: usize,
    stamped: usize,
)
    ensures { page.new ≡ put (replay_end_text number consumed records advances carried stamped) page.old }
{
    put_number(page, number);
    page.put_named(b", bytes consumed ", consumed);
    page.put_named(b", records ", records);
    page.put_named(b", advances ", advances);
    put_in_hand(page, carried, stamped);
}

// ---- Shown

// The difference to the stamp before; the first stamp has none.
fn put_since(page: &mut Page<'_>, earlier: Option<Stamp>, stamp: Stamp)
    ensures { page.new ≡ put (since_text earlier stamp) page.old }
{
    match earlier {
        Some(earlier) => {
            page.put_text(b"+");
            put_difference(page, difference(earlier, stamp));
        }
        None => page.put_text(b"the first stamp                  "),
    }
}

// An entry: the byte offset of its record's kind, its stamp, the difference to the stamp before, and the record.
pub fn put_entry(
    page: &mut Page<'_>,
    offset: u64,
    earlier: Option<Stamp>,
    stamp: Stamp,
    item: Record,
)
    ensures { page.new ≡ put (entry_text offset earlier stamp item) page.old }
{
    put_place(page, offset, stamp);
    put_since(page, earlier, stamp);
    page.put_text(b"  ");
    put_record(page, item);
}

// The end of a capture that was only shown.
pub fn put_capture_totals(page: &mut Page<'_>, entries: u64, bytes: u64, nanos: u64)
    ensures { page.new ≡ put (capture_totals_text entries bytes nanos) page.old }
{
    page.put_named(b"entries ", entries);
    page.put_named(b", bytes ", bytes);
    page.put_named(b", differences ", nanos);
    page.put_text(b" ns in all");
}
