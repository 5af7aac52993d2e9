// Stamps, differences and advances in words, each number with its unit.
// Kept in this file: a match on the index of an advance, which is 0 or 1: there are at most two.
#![tactic(auto, using(text_line::proofs::Putting::putting), unfolding(text_line::specs::Text::text_if, capture_lines::specs::Stamps::ten_of, capture_lines::specs::Stamps::stamp_column, capture_lines::specs::Stamps::stamp_text, capture_lines::specs::Stamps::clock_column, capture_lines::specs::Stamps::difference_text, capture_lines::specs::Stamps::span_text, capture_lines::specs::Stamps::advance_count, capture_lines::specs::Stamps::advance_at, capture_lines::specs::Stamps::part_text, capture_lines::specs::Stamps::advance_text))]

ghost use Rattle.std.specs.Prelude.{◌≡◌, length, get_or};
ghost use Rattle.text_line.specs.Page.{put};
ghost use Rattle.capture.specs.Advances.{advances};
ghost use Rattle.capture_lines.specs.Stamps.{ten_of, stamp_column, stamp_text, clock_column, difference_text, span_text, advance_count, advance_at, part_text, advance_text};

use text_line::Page;
use ticks::{Stamp, Ticks, in_nanos, stamp_number, ticks_number};
use times::{Nanos, nanos_number};

// ---- Stamps and differences

// A number in a column of ten.
fn put_ten(page: &mut Page<'_>, n: u64)
    ensures { page.new ≡ put (ten_of n) page.old }
{
    page.put_if(n < 1000000000, b" ");
    page.put_if(n < 100000000, b" ");
    page.put_column(n);
}

pub fn put_stamp_column(page: &mut Page<'_>, stamp: Stamp)
    ensures { page.new ≡ put (stamp_column stamp) page.old }
{
    put_ten(page, u64::from(stamp_number(stamp)));
    page.put_text(b" ticks");
}

pub fn put_stamp(page: &mut Page<'_>, stamp: Stamp)
    ensures { page.new ≡ put (stamp_text stamp) page.old }
{
    page.put_named(b"stamp ", u64::from(stamp_number(stamp)));
    page.put_text(b" ticks");
}

pub fn put_clock_column(page: &mut Page<'_>, clock: Nanos)
    ensures { page.new ≡ put (clock_column clock) page.old }
{
    put_ten(page, nanos_number(clock));
    page.put_text(b" ns");
}

// A difference in ticks, and its time.
pub fn put_difference(page: &mut Page<'_>, d: Ticks)
    ensures { page.new ≡ put (difference_text d) page.old }
{
    put_ten(page, u64::from(ticks_number(d)));
    page.put_text(b" ticks = ");
    put_ten(page, nanos_number(in_nanos(d)));
    page.put_text(b" ns");
}

// The same within a sentence.
pub fn put_span(page: &mut Page<'_>, d: Ticks)
    ensures { page.new ≡ put (span_text d) page.old }
{
    page.put_decimal(u64::from(ticks_number(d)));
    page.put_named(b" ticks (", nanos_number(in_nanos(d)));
    page.put_text(b" ns)");
}

// ---- Advances

// The longest that one record 01 can say, in ns.
const LONGEST: u64 = 4294967295;

// How many advances a time of so many ns has.
fn count_of(n: u64) -> usize
    ensures { result ≡ length (advances (record { 0 = n })) }
{
    if n == 0 {
        return 0;
    }
    if n <= LONGEST { 1 } else { 2 }
}

// How many advances a difference stands for.
pub fn advance_count(d: Ticks) -> usize
    ensures { result ≡ advance_count d }
{
    count_of(nanos_number(in_nanos(d)))
}

// The advance at an index of those of a time of n ns, in ns; 0 where there are no more.
fn part_of(n: u64, k: usize) -> u64
    ensures { result ≡ (get_or (advances (record { 0 = n })) k (record { 0 = 0 })).0 }
{
    if n == 0 {
        return 0;
    }
    if n <= LONGEST {
        return if k == 0 { n } else { 0 };
    }
    match k {
        0 => LONGEST,
        1 => n - LONGEST,
        _ => 0,
    }
}

// The advance at an index of those that a difference stands for; 0 ns where there are no more.
pub fn advance_at(d: Ticks, k: usize) -> Nanos
    ensures { result ≡ advance_at d k }
{
    times::nanos_of(part_of(nanos_number(in_nanos(d)), k))
}

// Which advance it is, where there are two.
fn put_part(page: &mut Page<'_>, count: usize, k: usize)
    ensures { page.new ≡ put (part_text count k) page.old }
{
    if count > 1 {
        page.put_either(k == 0, b"first part of ", b"rest of ");
    }
}

// An advance of a difference: its time, and the ticks that it comes from.
pub fn put_advance(page: &mut Page<'_>, d: Ticks, k: usize)
    ensures { page.new ≡ put (advance_text d k) page.old }
{
    page.put_named(b"advance ", nanos_number(advance_at(d, k)));
    page.put_text(b" ns (");
    put_part(page, advance_count(d), k);
    page.put_decimal(u64::from(ticks_number(d)));
    page.put_text(b" ticks)");
}
