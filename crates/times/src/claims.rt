// Times as suppliers claim them (02, Q-1): a number and its unit.
ghost use Rattle.std.specs.Prelude.{◌≡◌};
ghost use Rattle.times.specs.Claims.{nanos_in, claimed_nanos};

use crate::{ClaimedTime, Nanos, Unit};

// Nanoseconds in a microsecond, and in a millisecond.
const NANOS_IN_US: u64 = 1000;

const NANOS_IN_MS: u64 = 1000000;

// The claim of this number in this unit.
pub fn claimed(number: u64, unit: Unit) -> ClaimedTime
    ensures { result ≡ record { number = number; unit = unit } }
{
    ClaimedTime { number, unit }
}

// The number of a claim.
// Kept: the fields are private, so that only this crate makes one kind of time of another; other crates read them here and below.
pub fn claim_number(c: ClaimedTime) -> u64
    ensures { result ≡ c.number }
{
    c.number
}

// The unit of a claim.
pub fn claim_unit(c: ClaimedTime) -> Unit
    ensures { result ≡ c.unit }
{
    c.unit
}

// The nanoseconds in a unit.
#[tactic(auto, unfolding(crate::specs::Claims::nanos_in))]
fn nanos_in(unit: Unit) -> u64
    ensures { result ≡ nanos_in unit }
{
    match unit {
        Unit::Ns => 1,
        Unit::Us => NANOS_IN_US,
        Unit::Ms => NANOS_IN_MS,
    }
}

// A claim in nanoseconds; the greatest there is where the product has no room.
#[tactic(auto, unfolding(crate::specs::Claims::claimed_nanos))]
pub fn claimed_nanos(c: ClaimedTime) -> Nanos
    ensures { result ≡ claimed_nanos c }
{
    Nanos(c.number.saturating_mul(nanos_in(c.unit)))
}
