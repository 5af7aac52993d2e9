// The advances that are due, and what is checked before them.
ghost use Rattle.std.specs.Prelude.{◌≡◌, ◌≤◌, length, slice_get};
ghost use Rattle.capture.specs.Advances.{stamp_in, back, advances, due};
ghost use Rattle.capture.specs.Lent.{progress_in};
ghost use Rattle.replay_state.specs.inner.Moves.{due_of, advances_in, checked_at};

use crate::Due;
use crate::stamps::stamp_in;
use capture::Replay;
use times::Nanos;

// The longest advance that one record 01 can say, in nanoseconds.
const LONGEST: u64 = 4294967295;

impl Due {
    // How many they are.
    pub fn count(self) -> u8
        ensures { result ≡ length (advances_in self) }
    {
        match self {
            Due::Nothing => 0,
            Due::One(_) => 1,
            Due::Two(_, _) => 2,
        }
    }

    // The first of them after so many.
    pub fn after(self, answered: u8) -> Option<Nanos>
        ensures { result ≡ slice_get (advances_in self) answered }
    {
        match (self, answered) {
            (Due::One(first), 0) => Some(first),
            (Due::Two(first, _), 0) => Some(first),
            (Due::Two(_, second), 1) => Some(second),
            _ => None,
        }
    }
}

// None for 0; above 4,294,967,295 ns one of that size comes first, and then the rest.
#[tactic(auto, using(crate::proofs::Dues::none_for_0, crate::proofs::Dues::one_advance, crate::proofs::Dues::two_advances))]
pub fn advances_of(t: Nanos) -> Due
    ensures { result ≡ due_of (advances t) }
{
    let n = times::nanos_number(t);
    if n == 0 {
        Due::Nothing
    } else if n <= LONGEST {
        Due::One(t)
    } else {
        Due::Two(times::nanos_of(LONGEST), times::nanos_of(n - LONGEST))
    }
}

// Kept: a state is asked as a caller lends it, with any count of stamp bytes, so that it has four stands in the clause.
// Whether the recorder went back at the stamp in hand.
#[tactic(auto, using(crate::proofs::Moves::all_bytes), unfolding(capture::specs::Advances::back))]
pub fn goes_back(r: Replay) -> bool
    requires { r.stamp_len ≡ 4 }
    ensures { result ≡ back (progress_in r).earlier (stamp_in (progress_in r).stamp) }
{
    match r.before() {
        Some(earlier) => ticks::went_back(ticks::difference(earlier, stamp_in(r.stamp))),
        None => false,
    }
}

// The advances due after the stamp bytes that are there.
#[tactic(auto, using(crate::proofs::Moves::all_bytes, crate::proofs::Moves::bytes_there, crate::proofs::Dues::too_short, crate::proofs::Dues::the_first, crate::proofs::Dues::gone_back, crate::proofs::Dues::gone_on))]
pub fn due_of(r: Replay) -> Due
    requires { r.stamp_len ≤ 4 }
    ensures { result ≡ due_of (due (progress_in r).earlier (progress_in r).stamp) }
{
    let Some(earlier) = r.before() else {
        return Due::Nothing;
    };
    if r.stamp_len != 4 {
        return Due::Nothing;
    }
    let d = ticks::difference(earlier, stamp_in(r.stamp));
    if ticks::went_back(d) {
        Due::Nothing
    } else {
        advances_of(ticks::in_nanos(d))
    }
}

// Kept: as in `goes_back`.
// What is checked at the kind byte before the advances: 32, then 33, else nothing.
pub fn checked(r: Replay, kind: u8) -> Option<u8>
    requires { r.stamp_len ≡ 4 }
    ensures { result ≡ checked_at (progress_in r) kind }
{
    if goes_back(r) {
        Some(32)
    } else if kind == 1 {
        Some(33)
    } else {
        None
    }
}
