// What stands next, between records: an advance or a record.
ghost use Rattle.std.specs.Prelude.{◌≡◌, List, ◌∷◌, ℕ, ◌≤◌, ◌<◌, length, drop};
ghost use Rattle.times.specs.declared.Nanos.{Nanos};
ghost use Rattle.capture.specs.Lent.{progress_in};
ghost use Rattle.replay_state.specs.inner.Moves.{Tidy};
ghost use Rattle.replay.specs.inner.Steps.{step_at_advances, step_at_record, step_after_stamp, step_of};

use crate::{End, Run, Step};
use capture::Replay;
use decode::gathering::whole_size;
use replay_state::advancing::{checked, due_of};
use replay_state::stamps::{begin_record, ended_with, one_answered, with_stamp};
use times::Nanos;

// An advance that is due runs, if there is room for its answer.
#[tactic(auto, using(crate::proofs::ByStep::halted), unfolding(crate::specs::inner::Steps::step_at_advances))]
fn advance_step(r: Replay, by: Nanos, at: usize, space: usize) -> Result<Step, End>
    requires tidy { Tidy r }
    requires answered_bound { r.answered ≤ 1 }
    ensures { (more : List Nanos) → (rest : List ℕ) → result ≡ step_at_advances (by ∷ more) (progress_in r) space at rest }
{
    if space < 8 {
        return Err(End {
            number: 30,
            replay: r,
            at,
        });
    }
    Ok(Step {
        run: Run::Advance(by),
        replay: one_answered(r),
        at,
    })
}

// The record at `at` runs, if it is whole and there is room for its answer.
fn record_step(r: Replay, input: &[u8], at: usize, space: usize) -> Result<Step, End>
    requires tidy { Tidy r }
    requires stamp_len_value { (r.stamp_len ≡ 4) × (at ≤ length input.now) }
    ensures { result ≡ step_at_record (progress_in r) space at (drop at input.now) }
{
    let size = whole_size(input, 0, &input[at..], space);
    if size == 0 {
        return Err(End {
            number: 0,
            replay: r,
            at,
        });
    }
    Ok(Step {
        run: Run::Record(size),
        replay: begin_record(r),
        at: at + size,
    })
}

// What stands next after the stamp, at the kind byte.
fn kind_step(r: Replay, input: &[u8], at: usize, space: usize) -> Result<Step, End>
    requires tidy { Tidy r }
    requires stamp_len_value { (r.stamp_len ≡ 4) × (at < length input.now) }
    ensures { result ≡ step_after_stamp (progress_in r) space at (drop at input.now) }
{
    if let Some(number) = checked(r, input[at]) {
        return Err(End {
            number,
            replay: ended_with(r, number),
            at,
        });
    }
    match due_of(r).after(r.answered) {
        Some(by) => advance_step(r, by, at, space),
        None => record_step(r, input, at, space),
    }
}

// What stands next: the stamp's bytes are taken, and then comes the kind byte, or nothing.
pub fn next_step(r: Replay, input: &[u8], at: usize, space: usize) -> Result<Step, End>
    requires tidy { Tidy r }
    requires stamp_len_bound { (r.stamp_len ≤ 4) × (at ≤ length input.now) }
    ensures { result ≡ step_of (progress_in r) space at input.now }
{
    let t = with_stamp(r, input, at);
    let next = at + (t.stamp_len - r.stamp_len);
    if next == input.len() {
        return Err(End {
            number: 0,
            replay: t,
            at: next,
        });
    }
    kind_step(t, input, next, space)
}
