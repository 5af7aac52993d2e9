// The recorder's clock: stamps, differences of stamps in ticks, and the one way from ticks to nanoseconds. The fields are private: only
// this crate makes one of another.
#![tactic(auto)]

ghost use Rattle.std.specs.Prelude.{◌≡◌};
ghost use Rattle.ticks.specs.Ticks.{difference as difference_of, went_back, in_nanos};

use times::Nanos;

// What the recorder's clock shows: a count of ticks that wraps to 0.
#[derive(Clone, Copy, PartialEq, Eq)]
pub struct Stamp(u32);

// The difference of two stamps, in ticks.
#[derive(Clone, Copy, PartialEq, Eq)]
pub struct Ticks(u32);

// The stamp with this number.
pub fn stamp_of(x: u32) -> Stamp
    ensures { result ≡ record { 0 = x } }
{
    Stamp(x)
}

// The number of a stamp.
pub fn stamp_number(s: Stamp) -> u32
    ensures { result ≡ s.0 }
{
    s.0
}

// How many ticks.
pub fn ticks_number(d: Ticks) -> u32
    ensures { result ≡ d.0 }
{
    d.0
}

// From one stamp to the next, wrapped.
#[tactic(auto, unfolding(crate::specs::Ticks::difference))]
pub fn difference(earlier: Stamp, stamp: Stamp) -> Ticks
    ensures { result ≡ difference_of earlier stamp }
{
    Ticks(stamp.0.wrapping_sub(earlier.0))
}

// Whether the recorder went back: 2^31 ticks or more.
#[tactic(auto, unfolding(crate::specs::Ticks::went_back))]
pub fn went_back(d: Ticks) -> bool
    ensures { result ≡ went_back d }
{
    0x80000000 <= d.0
}

// The time of a difference, at 4 ns a tick: the one way from ticks to nanoseconds.
#[tactic(auto, unfolding(crate::specs::Ticks::in_nanos))]
pub fn in_nanos(d: Ticks) -> Nanos
    ensures { result ≡ in_nanos d }
{
    times::nanos_of(4 * u64::from(d.0))
}
