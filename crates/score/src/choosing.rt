// The differences of one slot, and the totals of what was collected.
ghost use Rattle.std.specs.Prelude.{◌≡◌, length};
ghost use Rattle.score.specs.Scores.{is_of, pick, chosen, total_of, capture_total};

use crate::Collected;
use crate::collecting::{collect, next_count, nothing_collected, put};
use lateness::{Report, refusal, totals};
use readiness::Moments;

// Whether the difference at a place is of the slot.
#[tactic(auto, unfolding(crate::specs::Scores::is_of))]
fn is_of(of: &[usize], at: usize, slot: usize) -> bool
    ensures { result ≡ is_of of.now at slot }
{
    at < of.len() && of[at] == slot
}

// A difference is put after those that were chosen, if it is of the slot.
fn pick_if(list: &mut [i64], count: usize, applies: bool, d: i64) -> usize
    ensures { record { count = result; list = list.new } ≡ pick applies d (record { count = count; list = list.old }) }
{
    if applies {
        put(list, count, d);
        next_count(count)
    } else {
        count
    }
}

// The differences of one slot, from the start of a list that is lent: how many there are.
pub fn choose(values: &[i64], of: &[usize], slot: usize, list: &mut [i64]) -> usize
    ensures { record { count = result; list = list.new } ≡ chosen values.now of.now slot (length values.now) (record { count = 0; list = list.old }) }
{
    let mut count: usize = 0;
    for i in 0..values.len() {
        let d = values[i];
        count = pick_if(&mut *list, count, is_of(of, i, slot), d);
    }
    count
}

// The totals of what was collected: 34 if a difference was refused, else 35 if there are more than 9,000.
pub fn total(values: &[i64], c: Collected) -> Report
    ensures { result ≡ total_of c.outside c.count values.now }
{
    if c.outside {
        return refusal(34);
    }
    let n = c.count.min(values.len());
    totals(&values[0..n])
}

// The totals over the differences of one capture.
pub fn total_of_capture(slots: usize, bench: Moments, seen: Moments) -> Report
    ensures { result ≡ capture_total slots bench seen }
{
    let mut values = [0i64; 32];
    let mut of = [0usize; 32];
    let c = collect(
        &mut values,
        &mut of,
        nothing_collected(),
        slots,
        bench,
        seen,
    );
    total(&values, c)
}
