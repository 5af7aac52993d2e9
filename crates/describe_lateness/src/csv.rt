// Comma-separated values: a row for each slot of a capture.
// Kept in this file: long parameter lists, since each function takes what its text names, from places that share no struct.
#![tactic(auto, using(text_line::proofs::Putting::putting), unfolding(text_line::specs::Text::text_if, crate::specs::Csv::moment_csv, crate::specs::Csv::difference_csv, crate::specs::Csv::verdict_csv, crate::specs::Csv::times_csv, crate::specs::Csv::end_csv, crate::specs::Csv::row_csv))]

ghost use Rattle.std.specs.Prelude.{◌≡◌};
ghost use Rattle.text_line.specs.Page.{put};
ghost use Rattle.describe_lateness.specs.Csv.{header_text, moment_csv, difference_csv, verdict_csv, times_csv, end_csv, row_csv};

use crate::signed::{put_plain, put_verdict};
use lateness::{Lateness, difference};
use text_line::Page;
use times::{Nanos, nanos_number};

// The names of the columns.
pub fn put_header(page: &mut Page<'_>)
    ensures { page.new ≡ put header_text page.old }
{
    page.put_text(b"capture,slot,bench_ns,seen_ns,difference_ns,verdict");
}

// A time in nanoseconds, nothing where there is none.
fn put_moment(page: &mut Page<'_>, m: Option<Nanos>)
    ensures { page.new ≡ put (moment_csv m) page.old }
{
    match m {
        None => {}
        Some(t) => page.put_decimal(nanos_number(t)),
    }
}

// A difference, nothing where there is none.
fn put_value(page: &mut Page<'_>, d: Lateness)
    ensures { page.new ≡ put (difference_csv d) page.old }
{
    match d {
        Lateness::NoDifference => {}
        Lateness::Of(value) => put_plain(page, value),
        Lateness::Outside => {}
    }
}

// Early, late or on time; 34 where the difference is refused.
fn put_word(page: &mut Page<'_>, d: Lateness)
    ensures { page.new ≡ put (verdict_csv d) page.old }
{
    match d {
        Lateness::NoDifference => {}
        Lateness::Of(value) => put_verdict(page, value),
        Lateness::Outside => page.put_text(b"34"),
    }
}

// The two times, with a comma after each.
fn put_times(page: &mut Page<'_>, bench: Option<Nanos>, seen: Option<Nanos>)
    ensures { page.new ≡ put (times_csv bench seen) page.old }
{
    put_moment(page, bench);
    page.put_text(b",");
    put_moment(page, seen);
    page.put_text(b",");
}

// The difference and its word.
fn put_end(page: &mut Page<'_>, d: Lateness)
    ensures { page.new ≡ put (end_csv d) page.old }
{
    put_value(page, d);
    page.put_text(b",");
    put_word(page, d);
}

// The row of a slot of a capture, whose name stands in it as it is.
pub fn put_row(
    page: &mut Page<'_>,
    capture: &[u8],
    slot: u64,
    bench: Option<Nanos>,
    seen: Option<Nanos>,
)
    ensures { page.new ≡ put (row_csv capture.now slot bench seen) page.old }
{
    page.put_text(capture);
    page.put_text(b",");
    page.put_decimal(slot);
    page.put_text(b",");
    put_times(page, bench, seen);
    put_end(page, difference(bench, seen));
}
