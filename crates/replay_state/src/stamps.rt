// The stamp in hand, and how the state of a replay moves.
ghost use Rattle.std.specs.Prelude.{◌≡◌, true, ◌+◌, ◌-◌, ◌≤◌, length, take, drop};
ghost use Rattle.trace.specs.Format.{pad};
ghost use Rattle.capture.specs.Advances.{stamp_in};
ghost use Rattle.capture.specs.Replay.{begins, ended_with, more_answered, fresh as fresh_progress, after_entry};
ghost use Rattle.capture.specs.Lent.{progress_in, stamp_fits, replay_of};
ghost use Rattle.replay_state.specs.inner.Moves.{Tidy, more_bytes};

use capture::Replay;
use ticks::Stamp;

// The state of a replay that has taken nothing.
pub fn fresh() -> Replay
    ensures { result ≡ replay_of fresh_progress }
{
    Replay {
        begun: false,
        earlier: ticks::stamp_of(0),
        stamp_len: 0,
        stamp: [0u8; 4],
        answered: 0,
        ended: 0,
    }
}

// Kept: a `From<[u8; 4]>` could stand in `ticks` alone, where `Stamp` is, below the definition in `capture` that this answers.
// The stamp that four bytes are, low byte first.
#[tactic(auto, unfolding(capture::specs::Advances::stamp_in))]
pub fn stamp_in(bytes: [u8; 4]) -> Stamp
    ensures { result ≡ stamp_in bytes }
{
    ticks::stamp_of(u32::from_le_bytes(bytes))
}

// The first n bytes, and zeros after them.
#[tactic(auto, using(crate::proofs::Moves::first_padded))]
fn first_of(bytes: [u8; 4], n: usize) -> [u8; 4]
    requires { n ≤ 4 }
    ensures { result ≡ pad 4 (take n bytes) }
{
    let mut first = [0u8; 4];
    first[..n].copy_from_slice(&bytes[..n]);
    first
}

// The same state, with 0 where it says nothing: the earlier stamp where no record was taken, and the bytes past those of the stamp.
pub fn tidy(r: Replay) -> Replay
    requires { stamp_fits r ≡ true }
    ensures { result ≡ replay_of (progress_in r) }
{
    Replay {
        earlier: r.before().unwrap_or(ticks::stamp_of(0)),
        stamp: first_of(r.stamp, r.stamp_len),
        ..r
    }
}

// Four bytes that stand in the input from `at` on.
#[tactic(auto, using(crate::proofs::Moves::four_at))]
fn whole_stamp(input: &[u8], at: usize) -> [u8; 4]
    requires { at + 4 ≤ length input.now }
    ensures { result ≡ take 4 (drop at input.now) }
{
    [input[at], input[at + 1], input[at + 2], input[at + 3]]
}

// The stamp whose four bytes stand in the input from `at` on.
pub fn stamp_at(input: &[u8], at: usize) -> Stamp
    requires { at + 4 ≤ length input.now }
    ensures { result ≡ stamp_in (take 4 (drop at input.now)) }
{
    stamp_in(whole_stamp(input, at))
}

// The bytes of the input from `at` on join those of the stamp, until it has four or the input ends.
pub fn with_stamp(r: Replay, input: &[u8], at: usize) -> Replay
    requires tidy { Tidy r }
    requires stamp_len_bound { (r.stamp_len ≤ 4) × (at ≤ length input.now) }
    ensures { result ≡ replay_of (more_bytes (take (4 - r.stamp_len) (drop at input.now)) (progress_in r)) }
{
    if r.stamp_len == 0 && 4 <= input.len() - at {
        return Replay {
            stamp_len: 4,
            stamp: whole_stamp(input, at),
            ..r
        };
    }
    let more = (4 - r.stamp_len).min(input.len() - at);
    let stamp_len = r.stamp_len + more;
    let mut stamp = r.stamp;
    stamp[r.stamp_len..stamp_len].copy_from_slice(&input[at..at + more]);
    Replay {
        stamp_len,
        stamp,
        ..r
    }
}

// One more advance of the stamp is answered.
pub fn one_answered(r: Replay) -> Replay
    requires tidy { Tidy r }
    requires answered_bound { r.answered ≤ 1 }
    ensures { result ≡ replay_of (more_answered 1 (progress_in r)) }
{
    Replay {
        answered: r.answered + 1,
        ..r
    }
}

// The kind byte is consumed: its stamp is the earlier one from now on.
pub fn begin_record(r: Replay) -> Replay
    requires tidy { Tidy r }
    requires stamp_len_value { r.stamp_len ≡ 4 }
    ensures { result ≡ replay_of (begins (progress_in r)) }
{
    Replay {
        ended: r.ended,
        ..after_entry(stamp_in(r.stamp))
    }
}

// The state between two entries, the first of which has this stamp.
pub fn after_entry(stamp: Stamp) -> Replay
    ensures { result ≡ replay_of (after_entry stamp) }
{
    Replay {
        begun: true,
        earlier: stamp,
        stamp_len: 0,
        stamp: [0u8; 4],
        answered: 0,
        ended: 0,
    }
}

// The replay ends with this number.
pub fn ended_with(r: Replay, number: u8) -> Replay
    requires { Tidy r }
    ensures { result ≡ replay_of (ended_with number (progress_in r)) }
{
    Replay { ended: number, ..r }
}
