// A slot's line of the table: bench time, seen time, and the difference or what is missing.
#![tactic(auto, using(text_line::proofs::Putting::putting), unfolding(text_line::specs::Text::text_if, crate::specs::Rows::group_margin, crate::specs::Rows::margin_text, crate::specs::Rows::column_text, crate::specs::Rows::slot_text, crate::specs::Rows::bench_text, crate::specs::Rows::seen_text, crate::specs::Rows::missing_text, crate::specs::Rows::within_text, crate::specs::Rows::note_text, crate::specs::Rows::row_text))]

ghost use Rattle.std.specs.Prelude.{◌≡◌};
ghost use Rattle.text_line.specs.Page.{put};
ghost use Rattle.describe_lateness.specs.Rows.{group_margin, margin_text, column_text, slot_text, bench_text, seen_text, missing_text, within_text, note_text, row_text};

use crate::signed::{put_difference, put_verdict};
use describe_times::time_words::put_nanos;
use lateness::{Lateness, difference};
use text_line::Page;
use times::{Nanos, nanos_number};

// Blanks before a group of three digits that isn't full.
fn put_group_margin(page: &mut Page<'_>, n: u64)
    ensures { page.new ≡ put (group_margin n) page.old }
{
    page.put_if(n < 10, b" ");
    page.put_if(n < 100, b" ");
    page.put_if(n < 1000, b"  ");
}

// Blanks before a number, so that numbers up to ten digits stand below one another.
fn put_margin(page: &mut Page<'_>, n: u64)
    ensures { page.new ≡ put (margin_text n) page.old }
{
    put_group_margin(page, n);
    put_group_margin(page, n / 1000);
    put_group_margin(page, n / 1000000);
}

// A name, and a time in its column.
fn put_column(page: &mut Page<'_>, name: &[u8], t: Nanos)
    ensures { page.new ≡ put (column_text name.now t) page.old }
{
    let n = nanos_number(t);
    page.put_text(name);
    put_margin(page, n);
    put_nanos(page, n);
}

fn put_slot(page: &mut Page<'_>, slot: u64)
    ensures { page.new ≡ put (slot_text slot) page.old }
{
    page.put_text(b"slot ");
    page.put_if(slot < 10, b" ");
    page.put_decimal(slot);
}

// When the replay last made the slot Ready.
fn put_bench(page: &mut Page<'_>, bench: Option<Nanos>)
    ensures { page.new ≡ put (bench_text bench) page.old }
{
    match bench {
        None => page.put_text(b"  bench not made Ready"),
        Some(t) => put_column(page, b"  bench ", t),
    }
}

// When the lab first saw it answer.
fn put_seen(page: &mut Page<'_>, seen: Option<Nanos>)
    ensures { page.new ≡ put (seen_text seen) page.old }
{
    match seen {
        None => page.put_text(b"  not seen"),
        Some(t) => put_column(page, b"  seen ", t),
    }
}

// Why there is no difference.
fn put_missing(page: &mut Page<'_>, bench: Option<Nanos>)
    ensures { page.new ≡ put (missing_text bench) page.old }
{
    match bench {
        None => page.put_text(b"  no difference: the replay did not make it Ready"),
        Some(_) => page.put_text(b"  no difference: no seen time"),
    }
}

// A difference that is within, and what it says.
fn put_within(page: &mut Page<'_>, d: i64)
    ensures { page.new ≡ put (within_text d) page.old }
{
    page.put_text(b"  ");
    put_difference(page, d);
    page.put_text(b"  ");
    put_verdict(page, d);
}

// The difference, or why there is none.
fn put_note(page: &mut Page<'_>, bench: Option<Nanos>, d: Lateness)
    ensures { page.new ≡ put (note_text bench d) page.old }
{
    match d {
        Lateness::NoDifference => put_missing(page, bench),
        Lateness::Of(value) => put_within(page, value),
        Lateness::Outside => page.put_text(b"  34 (difference outside +/-10^15 ns)"),
    }
}

// The whole line of a slot.
pub fn put_row(page: &mut Page<'_>, slot: u64, bench: Option<Nanos>, seen: Option<Nanos>)
    ensures { page.new ≡ put (row_text slot bench seen) page.old }
{
    put_slot(page, slot);
    put_bench(page, bench);
    put_seen(page, seen);
    put_note(page, bench, difference(bench, seen));
}
