// The totals of a list, or why there are none.
#![tactic(auto, using(text_line::proofs::Putting::putting), unfolding(text_line::specs::Text::text_if, crate::specs::Totals::counts_text, crate::specs::Totals::range_text, crate::specs::Totals::refusal_text))]

ghost use Rattle.std.specs.Prelude.{◌≡◌};
ghost use Rattle.text_line.specs.Page.{put};
ghost use Rattle.describe_lateness.specs.Totals.{counts_text, range_text, refusal_text};

use crate::signed::put_difference;
use lateness::Report;
use text_line::Page;

// How many were early, on time and late.
pub fn put_counts(page: &mut Page<'_>, r: Report)
    ensures { page.new ≡ put (counts_text r) page.old }
{
    page.put_text(b"early ");
    page.put_grouped(u64::from(r.early));
    page.put_text(b", on time ");
    page.put_grouped(u64::from(r.on_time));
    page.put_text(b", late ");
    page.put_grouped(u64::from(r.late));
}

// The least and the greatest difference, and the sum.
pub fn put_range(page: &mut Page<'_>, least: i64, greatest: i64, sum: i64)
    ensures { page.new ≡ put (range_text least greatest sum) page.old }
{
    page.put_text(b"least ");
    put_difference(page, least);
    page.put_text(b", greatest ");
    put_difference(page, greatest);
    page.put_text(b", sum ");
    put_difference(page, sum);
}

// Why there are no totals.
pub fn put_refusal(page: &mut Page<'_>, number: u8)
    ensures { page.new ≡ put (refusal_text number) page.old }
{
    if number == 34 {
        page.put_text(b"34 (a difference outside +/-10^15 ns): no totals");
    } else if number == 35 {
        page.put_text(b"35 (more than 9,000 differences): no totals");
    }
}
