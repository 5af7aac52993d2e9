// Times in words: a claim with its unit, and nanoseconds in the unit that reads best or in a given one.
#![tactic(auto, using(text_line::proofs::Putting::putting), unfolding(crate::specs::Times::unit_text, crate::specs::Times::claim_text, crate::specs::Times::nanos_text, crate::specs::Times::thousandths_text, crate::specs::Times::best_text, crate::specs::Times::time_text, crate::specs::Times::millionths_text, crate::specs::Times::in_unit_text))]

ghost use Rattle.std.specs.Prelude.{◌≡◌};
ghost use Rattle.text_line.specs.Page.{put};
ghost use Rattle.describe_times.specs.Times.{unit_text, claim_text, nanos_text, thousandths_text, best_text, time_text, millionths_text, in_unit_text};

use text_line::Page;
use times::{ClaimedTime, Nanos, Unit, claim_number, claim_unit, nanos_number};

// A unit.
pub fn put_unit(page: &mut Page<'_>, u: Unit)
    ensures { page.new ≡ put (unit_text u) page.old }
{
    match u {
        Unit::Ns => page.put_text(b"ns"),
        Unit::Us => page.put_text(b"us"),
        Unit::Ms => page.put_text(b"ms"),
    }
}

// A claim, as it is claimed.
pub fn put_claim(page: &mut Page<'_>, c: ClaimedTime)
    ensures { page.new ≡ put (claim_text c) page.old }
{
    page.put_decimal(claim_number(c));
    page.put_text(b" ");
    put_unit(page, claim_unit(c));
}

// Nanoseconds, thousands grouped.
pub fn put_nanos(page: &mut Page<'_>, n: u64)
    ensures { page.new ≡ put (nanos_text n) page.old }
{
    page.put_grouped(n);
    page.put_text(b" ns");
}

// So many thousandths, and what stands behind them.
fn put_thousandths(page: &mut Page<'_>, n: u64, end: &[u8])
    ensures { page.new ≡ put (thousandths_text n end.now) page.old }
{
    page.put_grouped(n / 1000);
    page.put_text(b".");
    page.put_three(n);
    page.put_text(end);
}

// Nanoseconds once more in us, ms or s, from 1 us on.
fn put_best(page: &mut Page<'_>, n: u64)
    ensures { page.new ≡ put (best_text n) page.old }
{
    if n >= 1000 {
        page.put_text(b" (");
        if n < 1000000 {
            put_thousandths(page, n, b" us)");
        } else if n < 1000000000 {
            put_thousandths(page, n / 1000, b" ms)");
        } else {
            put_thousandths(page, n / 1000000, b" s)");
        }
    }
}

// A time in nanoseconds, and from 1 us on in the unit that reads best, three decimals, the rest cut off.
pub fn put_time(page: &mut Page<'_>, t: Nanos)
    ensures { page.new ≡ put (time_text t) page.old }
{
    let n = nanos_number(t);
    put_nanos(page, n);
    put_best(page, n);
}

// So many millionths of a millisecond.
fn put_millionths(page: &mut Page<'_>, n: u64)
    ensures { page.new ≡ put (millionths_text n) page.old }
{
    page.put_grouped(n / 1000000);
    page.put_text(b".");
    page.put_six(n);
    page.put_text(b" ms");
}

// A time in a unit, exactly.
pub fn put_in_unit(page: &mut Page<'_>, t: Nanos, u: Unit)
    ensures { page.new ≡ put (in_unit_text t u) page.old }
{
    let n = nanos_number(t);
    match u {
        Unit::Ns => put_nanos(page, n),
        Unit::Us => put_thousandths(page, n, b" us"),
        Unit::Ms => put_millionths(page, n),
    }
}
