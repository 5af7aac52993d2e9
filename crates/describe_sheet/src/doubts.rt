// Codes far from those that the card had.
// Kept in this file: long parameter lists, since each function takes what its text names, from places that share no struct.
#![tactic(auto, using(text_line::proofs::Putting::putting), unfolding(text_line::specs::Text::text_if, crate::specs::Doubts::both_text, crate::specs::Doubts::doubt_text))]

ghost use Rattle.std.specs.Prelude.{◌≡◌};
ghost use Rattle.text_line.specs.Page.{put};
ghost use Rattle.describe_sheet.specs.Doubts.{both_text, doubt_text};

use crate::parts::put_slot_time;
use describe_times::time_words::{put_claim, put_time};
use sheet_grammar::Doubt;
use text_line::Page;
use times::{ClaimedTime, Code, in_nanos};

// A claim, the time of its code, and the time that the card had.
fn put_both(
    page: &mut Page<'_>,
    slot: u64,
    which: usize,
    claim: ClaimedTime,
    before: Code,
    after: Code,
)
    ensures { page.new ≡ put (both_text slot which claim before after) page.old }
{
    put_slot_time(page, slot, which);
    put_claim(page, claim);
    page.put_text(b" is coded as ");
    put_time(page, in_nanos(after));
    page.put_text(b", the card had ");
    put_time(page, in_nanos(before));
}

// What is to be said of a code that a sheet gives, beside the one that was there before; nothing without a doubt.
pub fn put_doubt(
    page: &mut Page<'_>,
    slot: u64,
    which: usize,
    claim: ClaimedTime,
    before: Code,
    after: Code,
    doubt: Option<Doubt>,
)
    ensures { page.new ≡ put (doubt_text slot which claim before after doubt) page.old }
{
    match doubt {
        None => {}
        Some(Doubt::AskUnit) => {
            put_both(page, slot, which, claim, before, after);
            page.put_text(b": is the unit right?");
        }
        Some(Doubt::OneIsZero) => put_both(page, slot, which, claim, before, after),
    }
}
