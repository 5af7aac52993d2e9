// Differences with their sign.
#![tactic(auto, using(text_line::proofs::Putting::putting), unfolding(text_line::specs::Text::text_if, crate::specs::Signed::sign_text, crate::specs::Signed::difference_text, crate::specs::Signed::verdict_text, crate::specs::Signed::plain_text))]

ghost use Rattle.std.specs.Prelude.{◌≡◌, nat_abs};
ghost use Rattle.text_line.specs.Page.{put};
ghost use Rattle.lateness.specs.Totals.{is_early, is_late};
ghost use Rattle.describe_lateness.specs.Signed.{sign_text, difference_text, verdict_text, plain_text};

use describe_times::time_words::put_nanos;
use text_line::Page;

fn is_early(d: i64) -> bool
    ensures { result ≡ is_early d }
{
    d < 0
}

fn is_late(d: i64) -> bool
    ensures { result ≡ is_late d }
{
    0 < d
}

// A difference without its sign.
fn size_of(d: i64) -> u64
    ensures { result ≡ nat_abs d }
{
    if d < 0 {
        let below = -1 - d;
        return (below as u64) + 1;
    }
    d as u64
}

// '-' if it is early, '+' if it is late.
fn put_sign(page: &mut Page<'_>, d: i64)
    ensures { page.new ≡ put (sign_text d) page.old }
{
    page.put_if(is_early(d), b"-");
    page.put_if(is_late(d), b"+");
}

// A difference in nanoseconds, thousands grouped.
pub fn put_difference(page: &mut Page<'_>, d: i64)
    ensures { page.new ≡ put (difference_text d) page.old }
{
    put_sign(page, d);
    put_nanos(page, size_of(d));
}

// Early, late or on time.
pub fn put_verdict(page: &mut Page<'_>, d: i64)
    ensures { page.new ≡ put (verdict_text d) page.old }
{
    if is_early(d) {
        page.put_text(b"early");
    } else if is_late(d) {
        page.put_text(b"late");
    } else {
        page.put_text(b"on time");
    }
}

// A plain integer, as programs read it: '-' before a negative one, no grouping.
pub fn put_plain(page: &mut Page<'_>, d: i64)
    ensures { page.new ≡ put (plain_text d) page.old }
{
    page.put_if(is_early(d), b"-");
    page.put_decimal(size_of(d));
}
