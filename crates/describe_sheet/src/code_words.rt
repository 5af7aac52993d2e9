// A claim and its code.
#![tactic(auto, using(text_line::proofs::Putting::putting), unfolding(text_line::specs::Text::text_if, crate::specs::CodeWords::claimed_text, crate::specs::CodeWords::same_in_unit_text, crate::specs::CodeWords::coded_text, crate::specs::CodeWords::given_text, crate::specs::CodeWords::lower_text, crate::specs::CodeWords::no_lower_text, crate::specs::CodeWords::too_long_text))]

ghost use Rattle.std.specs.Prelude.{◌≡◌};
ghost use Rattle.text_line.specs.Page.{put};
ghost use Rattle.describe_sheet.specs.CodeWords.{claimed_text, same_in_unit_text, coded_text, given_text, lower_text, no_lower_text, too_long_text};

use crate::parts::{is_ns, put_code, put_rounding, put_same_in_nanos};
use describe_times::time_words::{put_claim, put_in_unit, put_nanos};
use text_line::Page;
use times::{
    ClaimedTime, Code, GREATEST_TIME, Unit, claim_unit, claimed_nanos, in_nanos, nanos_number,
};

// A claim, and its nanoseconds where its unit is another.
pub fn put_claimed(page: &mut Page<'_>, c: ClaimedTime)
    ensures { page.new ≡ put (claimed_text c) page.old }
{
    put_claim(page, c);
    put_same_in_nanos(page, c);
}

// A code's time in a unit, where that isn't ns.
fn put_same_in_unit(page: &mut Page<'_>, code: Code, u: Unit)
    ensures { page.new ≡ put (same_in_unit_text code u) page.old }
{
    if !is_ns(u) {
        page.put_text(b" = ");
        put_in_unit(page, in_nanos(code), u);
    }
}

// A code after its name, and its time, also in the claim's unit.
fn put_coded(page: &mut Page<'_>, name: &[u8], c: ClaimedTime, code: Code)
    ensures { page.new ≡ put (coded_text name.now c code) page.old }
{
    put_code(page, name, code);
    page.put_text(b"h: ");
    put_nanos(page, nanos_number(in_nanos(code)));
    put_same_in_unit(page, code, claim_unit(c));
}

// The code that a claim is given.
pub fn put_given(page: &mut Page<'_>, c: ClaimedTime, code: Code)
    ensures { page.new ≡ put (given_text c code) page.old }
{
    put_coded(page, b"code ", c, code);
    put_rounding(page, c, code);
}

// The code of the next smaller time, and by how much it is below the claim.
pub fn put_lower(page: &mut Page<'_>, c: ClaimedTime, code: Code)
    ensures { page.new ≡ put (lower_text c code) page.old }
{
    let claim = nanos_number(claimed_nanos(c));
    let time = nanos_number(in_nanos(code));
    put_coded(page, b"next lower ", c, code);
    page.put_text(b", ");
    put_nanos(page, claim.saturating_sub(time));
    page.put_text(b" too short");
}

// That there is no smaller time.
pub fn put_no_lower(page: &mut Page<'_>)
    ensures { page.new ≡ put no_lower_text page.old }
{
    page.put_text(b"no lower code: 0 ns is the least time");
}

// A claim above the greatest time.
pub fn put_too_long(page: &mut Page<'_>, c: ClaimedTime)
    ensures { page.new ≡ put (too_long_text c) page.old }
{
    put_claim(page, c);
    page.put_named(b" is ", nanos_number(claimed_nanos(c)));
    page.put_named(b" ns, above ", GREATEST_TIME);
    page.put_text(b" ns");
}
