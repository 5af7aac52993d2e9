// The lines of a trace, and its end.
// Kept in this file: the numbers of refusals are the papers', and each function takes what its text names, from places that share no struct.
#![tactic(auto, using(text_line::proofs::Putting::putting), unfolding(text_line::specs::Text::text_if, crate::specs::Traces::shown_text, crate::specs::Traces::run_text, crate::specs::Traces::unknown_text, crate::specs::Traces::incomplete_text, crate::specs::Traces::number_meaning, crate::specs::Traces::number_text, crate::specs::Traces::refusal_text, crate::specs::Traces::end_text, crate::specs::Traces::totals_text))]

ghost use Rattle.std.specs.Prelude.{◌≡◌};
ghost use Rattle.text_line.specs.Page.{put};
ghost use Rattle.describe_trace.specs.Traces.{shown_text, run_text, unknown_text, incomplete_text, number_meaning, number_text, refusal_text, end_text, totals_text};

use crate::answer_words::put_answer;
use describe_records::record_words::put_record;
use records::Record;
use text_line::Page;
use times::Nanos;

// A record at its byte offset.
pub fn put_shown(page: &mut Page<'_>, offset: u64, item: Record)
    ensures { page.new ≡ put (shown_text offset item) page.old }
{
    page.put_column(offset);
    page.put_text(b"  ");
    put_record(page, item);
}

// A record that was run: byte offset, clock after it, the record and its answer.
pub fn put_run(page: &mut Page<'_>, offset: u64, clock: Nanos, item: Record, answer: &[u8])
    ensures { page.new ≡ put (run_text offset clock item answer.now) page.old }
{
    page.put_column(offset);
    page.put_text(b"  ");
    page.put_column(times::nanos_number(clock));
    page.put_text(b" ns  ");
    put_record(page, item);
    put_answer(page, item, answer);
}

// A byte that no kind has.
pub fn put_unknown(page: &mut Page<'_>, offset: u64, kind: u8)
    ensures { page.new ≡ put (unknown_text offset kind) page.old }
{
    page.put_column(offset);
    page.put_text(b"  unknown kind ");
    page.put_hex(2, kind as u64);
    page.put_text(b"h (kinds are 01h to 0Dh): the trace is broken here");
}

// A record that the file's end cuts off: its kind, how many of its bytes are there, and how many it has.
pub fn put_incomplete(page: &mut Page<'_>, offset: u64, kind: u8, count: usize, size: usize)
    ensures { page.new ≡ put (incomplete_text offset kind count size) page.old }
{
    page.put_column(offset);
    page.put_text(b"  incomplete record of kind ");
    page.put_hex(2, kind as u64);
    page.put_named(b"h: the file has ", count as u64);
    page.put_named(b" of its ", size as u64);
    page.put_text(b" bytes");
}

// What a number given for no means.
fn put_number_meaning(page: &mut Page<'_>, number: u8)
    ensures { page.new ≡ put (number_meaning number) page.old }
{
    match number {
        0 => page.put_text(b" (everything fed)"),
        1 => page.put_text(b" (slots not 1 to 32, or lengths that don't fit them)"),
        2 => page.put_text(b" (queue length not 1 to 4095)"),
        3 => page.put_text(b" (a time code above A1Eh)"),
        4 => page.put_text(b" (a default with bit 15 or 21 of 78h or bits 1:0 of 44h set)"),
        5 => page.put_text(b" (port or statuses unsound)"),
        30 => page.put_text(b" (no room for an answer)"),
        31 => page.put_text(b" (the trace is broken: unknown kind)"),
        32 => page.put_text(b" (the recorder went back)"),
        33 => page.put_text(b" (an advance in a capture)"),
        _ => {}
    }
}

// A number with its meaning.
pub fn put_number(page: &mut Page<'_>, number: u8)
    ensures { page.new ≡ put (number_text number) page.old }
{
    page.put_named(b"number ", number as u64);
    put_number_meaning(page, number);
}

// A set-up that is refused.
pub fn put_refusal(page: &mut Page<'_>, number: u8)
    ensures { page.new ≡ put (refusal_text number) page.old }
{
    page.put_text(b"set-up refused: ");
    put_number(page, number);
}

// The end of a run: the last number, bytes consumed, records, and how many bytes of an incomplete record are carried.
pub fn put_end(page: &mut Page<'_>, number: u8, consumed: u64, records: u64, carried: usize)
    ensures { page.new ≡ put (end_text number consumed records carried) page.old }
{
    put_number(page, number);
    page.put_named(b", bytes consumed ", consumed);
    page.put_named(b", records ", records);
    page.put_if(carried > 0, b", the last record is incomplete");
}

// The end of a trace that was only shown.
pub fn put_totals(page: &mut Page<'_>, records: u64, bytes: u64)
    ensures { page.new ≡ put (totals_text records bytes) page.old }
{
    page.put_named(b"records ", records);
    page.put_named(b", bytes ", bytes);
}
