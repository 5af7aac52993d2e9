// What a sheet says of a slot, as comments of a card file.
// Kept in this file: long parameter lists, since each function takes what its text names, from places that share no struct.
#![tactic(auto, using(text_line::proofs::Putting::putting), unfolding(text_line::specs::Text::text_if, crate::specs::Comments::claimed_comment, crate::specs::Comments::code_comment, crate::specs::Comments::time_comment, crate::specs::Comments::unnamed_comment))]

ghost use Rattle.std.specs.Prelude.{◌≡◌};
ghost use Rattle.text_line.specs.Page.{put};
ghost use Rattle.describe_sheet.specs.Comments.{claimed_comment, code_comment, time_comment, unnamed_comment};

use crate::parts::{put_code, put_rounding, put_same_in_nanos, put_slot_time};
use describe_times::time_words::{put_claim, put_time};
use text_line::Page;
use times::{ClaimedTime, Code, in_nanos};

// A time of a slot as it is claimed.
fn put_claimed_comment(page: &mut Page<'_>, slot: u64, which: usize, claim: ClaimedTime)
    ensures { page.new ≡ put (claimed_comment slot which claim) page.old }
{
    page.put_text(b"# ");
    put_slot_time(page, slot, which);
    put_claim(page, claim);
    page.put_text(b" claimed");
    put_same_in_nanos(page, claim);
}

// Its code, and the time of that.
fn put_code_comment(page: &mut Page<'_>, claim: ClaimedTime, code: Code)
    ensures { page.new ≡ put (code_comment claim code) page.old }
{
    put_code(page, b"; code ", code);
    page.put_text(b"h = ");
    put_time(page, in_nanos(code));
    put_rounding(page, claim, code);
}

// A time of a slot on the sheet: the claim, and the code that it is given.
pub fn put_time_comment(
    page: &mut Page<'_>,
    slot: u64,
    which: usize,
    claim: ClaimedTime,
    code: Code,
)
    ensures { page.new ≡ put (time_comment slot which claim code) page.old }
{
    put_claimed_comment(page, slot, which, claim);
    put_code_comment(page, claim, code);
}

// A slot that no line names.
pub fn put_unnamed_comment(page: &mut Page<'_>, slot: u64)
    ensures { page.new ≡ put (unnamed_comment slot) page.old }
{
    page.put_named(b"# slot ", slot);
    page.put_text(b": not on the sheet");
}
