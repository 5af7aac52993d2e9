// The differences of a capture, after those of earlier ones.
// Kept in this file: the parameters are those of `collect`, an entry that is lent the two lists.
ghost use Rattle.std.specs.Prelude.{◌≡◌, false, set};
ghost use Rattle.score.specs.Scores.{next_count, difference_at, Lists, lists, kept, with_difference, collected};

use crate::Collected;
use lateness::{Lateness, bench_time, of_slot};
use readiness::Moments;

pub fn nothing_collected() -> Collected
    ensures { result ≡ record { count = 0; outside = false } }
{
    Collected {
        count: 0,
        outside: false,
    }
}

// The difference of a slot, by the bench times and the seen times.
pub fn difference_at(slots: usize, bench: Moments, seen: Moments, slot: usize) -> Lateness
    ensures { result ≡ difference_at slots bench seen slot }
{
    of_slot(slots, bench, slot, bench_time(slots, seen, slot))
}

// One more, up to 9,001.
#[tactic(auto, unfolding(crate::specs::Scores::next_count))]
pub fn next_count(count: usize) -> usize
    ensures { result ≡ next_count count }
{
    if count < 9001 { count + 1 } else { count }
}

// An item is put at a place, if it is there.
pub fn put<T: Copy>(list: &mut [T], at: usize, item: T)
    ensures { list.new ≡ set list.old at item }
{
    if at < list.len() {
        list[at] = item;
    }
}

// A difference is put after those that were collected.
fn keep(values: &mut [i64], of: &mut [usize], c: Collected, slot: usize, d: i64) -> Collected
    ensures { lists result values.new of.new ≡ kept slot d (lists c values.old of.old) }
{
    let at = c.count;
    put(values, at, d);
    put(of, at, slot);
    Collected {
        count: next_count(at),
        outside: c.outside,
    }
}

// The difference of a slot, if there is one, is put after those that were collected; one that is refused is noted.
#[tactic(auto, unfolding(crate::specs::Scores::with_difference))]
fn with_difference(
    values: &mut [i64],
    of: &mut [usize],
    c: Collected,
    slot: usize,
    d: Lateness,
) -> Collected
    ensures { lists result values.new of.new ≡ with_difference slot d (lists c values.old of.old) }
{
    match d {
        Lateness::NoDifference => c,
        Lateness::Of(value) => keep(values, of, c, slot, value),
        Lateness::Outside => Collected { outside: true, ..c },
    }
}

// The differences of a capture, slot by slot, after those that were collected before.
pub fn collect(
    values: &mut [i64],
    of: &mut [usize],
    before: Collected,
    slots: usize,
    bench: Moments,
    seen: Moments,
) -> Collected
    ensures { lists result values.new of.new ≡ collected slots bench seen 32 (lists before values.old of.old) }
{
    let mut c = before;
    for i in 0..32 {
        let d = difference_at(slots, bench, seen, i);
        c = with_difference(&mut *values, &mut *of, c, i, d);
    }
    c
}
