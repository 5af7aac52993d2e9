// What stands next in a call: a stretch of it, written out.
ghost use Rattle.std.specs.Prelude.{◌≡◌, ◌+◌, ◌≤◌, ◌<◌, length, take};
ghost use Rattle.capture.specs.Lent.{progress_in};
ghost use Rattle.replay.specs.inner.Steps.{step_bytes};
ghost use Rattle.replay.specs.inner.Calls.{Between};
ghost use Rattle.replay.specs.inner.Stretches.{stamp_before, StepFits, Follows};

use crate::stepping::next_step;
use crate::writing::{BYTES, put_advance, put_each, write_entries};
use crate::{End, Run, Step, Stretch};
use capture::Replay;
use ticks::Stamp;

// The stamp of the entry before, if the replay stands between two entries.
fn stamp_before(r: Replay) -> Option<Stamp>
    ensures { result ≡ stamp_before r }
{
    if r.stamp_len == 0 && r.ended == 0 {
        r.before()
    } else {
        None
    }
}

// The bytes of a step that runs; gives how many they are.
fn put_step(step: Step, input: &[u8], trace: &mut [u8]) -> usize
    requires { StepFits step × (step.at ≤ length input.now) × (17 ≤ length trace.old) }
    ensures { (result ≤ length trace.old) × (take result trace.new ≡ step_bytes step input.now) }
{
    match step.run {
        Run::Advance(by) => {
            put_advance(trace, 0, by);
            5
        }
        Run::Record(size) => {
            put_each(trace, 0, input, step.at - size, size);
            size
        }
    }
}

// Kept: the place goes beside the whole input, as `step_of` counts it, and the trace is a `&mut` slice, so that a struct of them needs a clause on its ghost name in each function.
// One step.
fn one_step(
    r: Replay,
    input: &[u8],
    at: usize,
    space: usize,
    trace: &mut [u8],
) -> Result<Stretch, End>
    requires between { Between r }
    requires at_in_bounds { (at ≤ length input.now) × (27 ≤ length trace.old) }
    ensures { Follows r space at input.now result trace.new }
{
    let step = next_step(r, input, at, space)?;
    Ok(Stretch {
        answers: 8,
        len: put_step(step, input, trace),
        replay: step.replay,
        at: step.at,
    })
}

// Kept: the place goes beside the whole input, as `step_of` counts it, and the trace is a `&mut` slice, so that a struct of them needs a clause on its ghost name in each function.
// What stands next: all entries that can be written out; where there is none, one step.
fn next_part(
    r: Replay,
    input: &[u8],
    at: usize,
    space: usize,
    trace: &mut [u8],
) -> Result<Stretch, End>
    requires between { Between r }
    requires at_in_bounds { (at ≤ length input.now) × (27 ≤ length trace.old) }
    ensures { Follows r space at input.now result trace.new }
{
    if let Some(before) = stamp_before(r) {
        let entries = write_entries(before, input, at, space, &mut *trace);
        if entries.answers > 0 {
            return Ok(entries);
        }
    }
    one_step(r, input, at, space, trace)
}

// Two parts, one behind the other.
fn joined(s: Stretch, more: Stretch) -> Stretch
    requires { (s.len + more.len < 18446744073709551616) × (s.answers + more.answers < 18446744073709551616) }
    ensures { result ≡ record { len = s.len + more.len; answers = s.answers + more.answers; replay = more.replay; at = more.at } }
{
    Stretch {
        len: s.len + more.len,
        answers: s.answers + more.answers,
        ..more
    }
}

// Kept: the place goes beside the whole input, as `step_of` counts it, and the trace is a `&mut` slice, so that a struct of them needs a clause on its ghost name in each function.
// WHAT STANDS NEXT in a call: part after part, as long as there is room for the bytes of one more, until the call ends.
pub fn next_stretch(
    r: Replay,
    input: &[u8],
    at: usize,
    space: usize,
    trace: &mut [u8],
) -> Result<Stretch, End>
    requires between { Between r }
    requires at_in_bounds { (at ≤ length input.now) × (27 ≤ length trace.old) }
    ensures { Follows r space at input.now result trace.new }
{
    let mut s = next_part(r, input, at, space, &mut *trace)?;
    // Kept: each turn goes as far as its part does, and counts no index.
    while trace.len() - s.len >= BYTES {
        let len = s.len;
        match next_part(s.replay, input, s.at, space - s.answers, &mut trace[len..]) {
            Ok(more) => s = joined(s, more),
            Err(_) => break,
        }
    }
    Ok(s)
}
