// Parts that several lines have.
#![tactic(auto, using(text_line::proofs::Putting::putting), unfolding(text_line::specs::Text::text_if, crate::specs::Parts::time_name, crate::specs::Parts::slot_time_text, crate::specs::Parts::code_text, crate::specs::Parts::is_ns, crate::specs::Parts::not_ns_text, crate::specs::Parts::same_in_nanos_text, crate::specs::Parts::rounded_text, crate::specs::Parts::rounding_text))]

ghost use Rattle.std.specs.Prelude.{◌≡◌};
ghost use Rattle.text_line.specs.Page.{put};
ghost use Rattle.describe_sheet.specs.Parts.{time_name, slot_time_text, code_text, is_ns, not_ns_text, same_in_nanos_text, rounded_text, rounding_text};

use describe_times::time_words::put_nanos;
use text_line::Page;
use times::{
    ClaimedTime, Code, Unit, claim_unit, claimed_nanos, code_number, in_nanos, nanos_number,
};

// The name of the first to fourth time of a slot.
pub fn put_time_name(page: &mut Page<'_>, which: usize)
    ensures { page.new ≡ put (time_name which) page.old }
{
    if which == 0 {
        page.put_text(b"Reset");
    } else if which == 1 {
        page.put_text(b"DL Up");
    } else if which == 2 {
        page.put_text(b"FLR");
    } else {
        page.put_text(b"D3hot to D0");
    }
}

// A slot and the name of a time.
pub fn put_slot_time(page: &mut Page<'_>, slot: u64, which: usize)
    ensures { page.new ≡ put (slot_time_text slot which) page.old }
{
    page.put_named(b"slot ", slot);
    page.put_text(b" ");
    put_time_name(page, which);
    page.put_text(b": ");
}

// A code in three hex digits, after its name.
pub fn put_code(page: &mut Page<'_>, name: &[u8], code: Code)
    ensures { page.new ≡ put (code_text name.now code) page.old }
{
    page.put_text(name);
    page.put_hex(3, code_number(code) as u64);
}

// Whether the unit is ns.
pub fn is_ns(u: Unit) -> bool
    ensures { result ≡ is_ns u }
{
    u == Unit::Ns
}

// Nanoseconds, where the unit is another.
fn put_not_ns(page: &mut Page<'_>, u: Unit, n: u64)
    ensures { page.new ≡ put (not_ns_text u n) page.old }
{
    if !is_ns(u) {
        page.put_text(b" = ");
        put_nanos(page, n);
    }
}

// A claim's nanoseconds, where its unit is another.
pub fn put_same_in_nanos(page: &mut Page<'_>, c: ClaimedTime)
    ensures { page.new ≡ put (same_in_nanos_text c) page.old }
{
    put_not_ns(page, claim_unit(c), nanos_number(claimed_nanos(c)));
}

// By how much a time is above a claim.
fn put_rounded(page: &mut Page<'_>, claim: u64, time: u64)
    ensures { page.new ≡ put (rounded_text claim time) page.old }
{
    if time == claim {
        page.put_text(b", exact");
    } else {
        page.put_text(b", rounded up by ");
        put_nanos(page, time.saturating_sub(claim));
    }
}

// By how much a code's time is above a claim.
pub fn put_rounding(page: &mut Page<'_>, c: ClaimedTime, code: Code)
    ensures { page.new ≡ put (rounding_text c code) page.old }
{
    let claim = nanos_number(claimed_nanos(c));
    let time = nanos_number(in_nanos(code));
    put_rounded(page, claim, time);
}
