// The moments at which slots became Ready, between the numbers of a call and what goes from call to call.
ghost use Rattle.std.specs.Prelude.{◌≡◌, ◌≤◌, length, replicate};
ghost use Rattle.times.specs.Moments.{greatest_nanos};
ghost use Rattle.readiness.specs.MadeReady.{moments_of};
ghost use Rattle.readiness.specs.inner.Phases.{statuses_in, moments_in, moments_with};

use crate::phases::put_moment;
use readiness::Moments;

// No slot of the numbers has one: each has the greatest moment there is, which no sound clock reaches.
pub fn forget(phases: &mut [u64])
    ensures phases_unchanged { statuses_in phases.new ≡ statuses_in phases.old }
    ensures phases_after { moments_in phases.new ≡ replicate (length (statuses_in phases.old)) greatest_nanos }
{
    for i in 0..phases.len() / 4 {
        put_moment(&mut *phases, i, times::GREATEST_NANOS);
    }
}

// The moments of before, and those of the numbers where a slot has one.
pub fn gathered(kept: Moments, phases: &[u64]) -> Moments
    requires { length (statuses_in phases.now) ≤ 32 }
    ensures { moments_of result ≡ moments_with (moments_of kept) (moments_in phases.now) }
{
    let mut m = kept;
    for i in 0..phases.len() / 4 {
        let moment = phases[4 * i + 3];
        if moment != times::GREATEST_NANOS {
            m.note(i, times::nanos_of(moment));
        }
    }
    m
}
