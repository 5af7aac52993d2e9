// The difference of a slot: the seen time minus the bench time.
ghost use Rattle.std.specs.Prelude.{◌≡◌};
ghost use Rattle.lateness.specs.Lateness.{bench_time, apart, lateness_of, lateness_number, lateness_value};

use crate::Lateness;
use readiness::Moments;
use times::{Nanos, nanos_number};

// A difference is at most this, either way.
const GREATEST_DIFFERENCE: u64 = 1000000000000000;

// When the replay last made a slot Ready; never for a slot that the card doesn't have.
#[tactic(auto, unfolding(crate::specs::Lateness::bench_time))]
pub fn bench_time(slots: usize, moments: Moments, slot: usize) -> Option<Nanos>
    ensures { result ≡ bench_time slots moments slot }
{
    if slots <= slot || 32 <= slot {
        return None;
    }
    moments.moment(slot)
}

// The seen time minus the bench time, both in nanoseconds.
fn minus(seen: u64, bench: u64) -> Lateness
    ensures { result ≡ apart seen bench }
{
    if bench <= seen {
        let late = seen - bench;
        if late <= GREATEST_DIFFERENCE {
            Lateness::Of(late as i64)
        } else {
            Lateness::Outside
        }
    } else {
        let early = bench - seen;
        if early <= GREATEST_DIFFERENCE {
            Lateness::Of(0 - (early as i64))
        } else {
            Lateness::Outside
        }
    }
}

// The difference of a slot that the bench made Ready and the lab saw then.
#[tactic(auto, unfolding(crate::specs::Lateness::lateness_of))]
pub fn difference(bench: Option<Nanos>, seen: Option<Nanos>) -> Lateness
    ensures { result ≡ lateness_of bench seen }
{
    match (bench, seen) {
        (Some(made), Some(first)) => minus(nanos_number(first), nanos_number(made)),
        _ => Lateness::NoDifference,
    }
}

// The difference of a slot, by the moments that the replay keeps.
pub fn of_slot(slots: usize, moments: Moments, slot: usize, seen: Option<Nanos>) -> Lateness
    ensures { result ≡ lateness_of (bench_time slots moments slot) seen }
{
    difference(bench_time(slots, moments, slot), seen)
}

// 0 without a difference, 1 with one, 34 where it is refused.
#[tactic(auto, unfolding(crate::specs::Lateness::lateness_number))]
pub fn number_of(d: Lateness) -> u8
    ensures { result ≡ lateness_number d }
{
    match d {
        Lateness::NoDifference => 0,
        Lateness::Of(_) => 1,
        Lateness::Outside => 34,
    }
}

// The difference, 0 where there is none.
#[tactic(auto, unfolding(crate::specs::Lateness::lateness_value))]
pub fn value_of(d: Lateness) -> i64
    ensures { result ≡ lateness_value d }
{
    match d {
        Lateness::NoDifference => 0,
        Lateness::Of(value) => value,
        Lateness::Outside => 0,
    }
}
