// Why a file of seen times is refused.
#![tactic(auto, using(text_line::proofs::Putting::putting), unfolding(text_line::specs::Text::text_if, crate::specs::Refusals::reason_text, crate::specs::Refusals::file_text))]

ghost use Rattle.std.specs.Prelude.{◌≡◌};
ghost use Rattle.text_line.specs.Page.{put};
ghost use Rattle.describe_lateness.specs.Refusals.{reason_text, file_text};

use seen_grammar::SeenRefusal;
use text_line::Page;

// The reason.
fn put_reason(page: &mut Page<'_>, why: SeenRefusal)
    ensures { page.new ≡ put (reason_text why) page.old }
{
    match why {
        SeenRefusal::NoRefusal => {}
        SeenRefusal::Layout => page.put_text(
            b": expected a slot (1 to 10 digits), a time (1 to 16 digits) and ns, us or ms, one space between, and the end of the line (0Ah)",
        ),
        SeenRefusal::NoSlot => page.put_text(b": the card has no such slot"),
        SeenRefusal::NamedBefore => page.put_text(b": the slot was named before"),
        SeenRefusal::TooLong => page.put_text(b": the time is above 2,000,000,000,000,000 ns"),
    }
}

// The line that refuses a file, counted from 1, and the reason.
pub fn put_file_refusal(page: &mut Page<'_>, count: u64, why: SeenRefusal)
    ensures { page.new ≡ put (file_text count why) page.old }
{
    page.put_named(b"line ", count);
    put_reason(page, why);
}
