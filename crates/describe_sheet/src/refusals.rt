// Why a sheet is refused.
// Kept in this file: the numbers of refusals are the papers', and each function takes what its text names, from places that share no struct.
#![tactic(auto, using(text_line::proofs::Putting::putting), unfolding(text_line::specs::Text::text_if, crate::specs::Refusals::column_at, crate::specs::Refusals::slots_below, crate::specs::Refusals::field_name, crate::specs::Refusals::layout_text, crate::specs::Refusals::no_slot_text, crate::specs::Refusals::named_text, crate::specs::Refusals::one_too_long_text, crate::specs::Refusals::first_too_long_text, crate::specs::Refusals::reason_text, crate::specs::Refusals::refusal_text))]

ghost use Rattle.std.specs.Prelude.{◌≡◌};
ghost use Rattle.text_line.specs.Page.{put};
ghost use Rattle.sheet_grammar.specs.Reading.{is_too_long};
ghost use Rattle.describe_sheet.specs.Refusals.{column_at, slots_below, field_name, layout_text, no_slot_text, named_text, one_too_long_text, first_too_long_text, reason_text, refusal_text};

use crate::code_words::put_too_long;
use crate::parts::put_time_name;
use sheet_grammar::{Fault, SheetLine};
use text_line::Page;
use times::{ClaimedTime, GREATEST_NANOS, GREATEST_TIME, claimed_nanos, nanos_number};

// A place of a line, counted from 1.
fn column_at(place: usize) -> u64
    ensures { result ≡ column_at place }
{
    let n = place as u64;
    if n < GREATEST_NANOS { n + 1 } else { n }
}

// The smaller of the slots that a card has and the slots that there can be.
fn slots_below(slots: usize) -> u64
    ensures { result ≡ slots_below slots }
{
    if slots < 32 { slots as u64 } else { 32 }
}

// The name of a field that is a number.
fn put_field_name(page: &mut Page<'_>, field: usize)
    ensures { page.new ≡ put (field_name field) page.old }
{
    if field == 0 {
        page.put_text(b"the slot");
    } else {
        page.put_text(b"the ");
        put_time_name(page, field - 1);
        page.put_text(b" time");
    }
}

// 40: where the line departs from the layout, and what was expected there.
fn put_layout(page: &mut Page<'_>, fault: Fault)
    ensures { page.new ≡ put (layout_text fault) page.old }
{
    let field = fault.field;
    page.put_named(b"40: column ", column_at(fault.place));
    if field < 5 {
        page.put_text(b": expected a decimal number of 1 to 10 digits and one space, for ");
        put_field_name(page, field);
    } else {
        page.put_text(b": expected ns, us or ms, and the end of the line (0Ah) after it");
    }
}

// 41: a slot that the card hasn't.
fn put_no_slot(page: &mut Page<'_>, slots: usize, slot: u64)
    ensures { page.new ≡ put (no_slot_text slots slot) page.old }
{
    page.put_named(b"41: slot ", slot);
    page.put_named(b": expected a slot below ", slots_below(slots));
}

// 42: a slot that was named before.
fn put_named_before(page: &mut Page<'_>, slot: u64)
    ensures { page.new ≡ put (named_text slot) page.old }
{
    page.put_named(b"42: slot ", slot);
    page.put_text(b": named on an earlier line, expected each slot once");
}

// Whether a claim is above the greatest time.
fn is_too_long(c: ClaimedTime) -> bool
    ensures { result ≡ is_too_long c }
{
    GREATEST_TIME < nanos_number(claimed_nanos(c))
}

// 43: a time above the greatest.
fn put_one_too_long(page: &mut Page<'_>, which: usize, c: ClaimedTime)
    ensures { page.new ≡ put (one_too_long_text which c) page.old }
{
    page.put_text(b"43: ");
    put_time_name(page, which);
    page.put_text(b" ");
    put_too_long(page, c);
}

// The first of the four that is.
fn put_first_too_long(page: &mut Page<'_>, l: SheetLine)
    ensures { page.new ≡ put (first_too_long_text l) page.old }
{
    let reset = l.reset;
    let dl_up = l.dl_up;
    let flr = l.flr;
    let d3hot = l.d3hot;
    if is_too_long(reset) {
        put_one_too_long(page, 0, reset);
    } else if is_too_long(dl_up) {
        put_one_too_long(page, 1, dl_up);
    } else if is_too_long(flr) {
        put_one_too_long(page, 2, flr);
    } else {
        put_one_too_long(page, 3, d3hot);
    }
}

// The number of a refusal, and its reason.
fn put_reason(page: &mut Page<'_>, number: u8, slots: usize, l: SheetLine, fault: Fault)
    ensures { page.new ≡ put (reason_text number slots l fault) page.old }
{
    if number == 40 {
        put_layout(page, fault);
    } else if number == 41 {
        put_no_slot(page, slots, l.slot);
    } else if number == 42 {
        put_named_before(page, l.slot);
    } else {
        put_first_too_long(page, l);
    }
}

// The line that refuses a sheet, counted from 1, with the refusal's number and its reason.
pub fn put_refusal(
    page: &mut Page<'_>,
    number: u8,
    row: usize,
    slots: usize,
    l: SheetLine,
    fault: Fault,
)
    ensures { page.new ≡ put (refusal_text number row slots l fault) page.old }
{
    page.put_named(b"line ", row as u64);
    page.put_text(b": ");
    put_reason(page, number, slots, l, fault);
}
