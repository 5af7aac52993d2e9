// Entries of a capture, written out as the trace that they stand for.
ghost use Rattle.std.specs.Prelude.{◌≡◌, ◌+◌, ◌*◌, ◌≤◌, length, take, drop, IfSome};
ghost use Rattle.std.proofs.Math.Seq.{paste};
ghost use Rattle.capture.specs.Advances.{advance, advance_bytes};
ghost use Rattle.capture.specs.Replay.{after_entry};
ghost use Rattle.capture.specs.Lent.{progress_in};
ghost use Rattle.replay_state.specs.inner.Moves.{advances_in};
ghost use Rattle.replay.specs.inner.Calls.{Between};
ghost use Rattle.replay.specs.inner.Stretches.{size_in_entry, StandsNext, WrittenOut};

use crate::{Entry, Stretch};
use decode::gathering::size_of;
use replay_state::Due;
use replay_state::advancing::advances_of;
use replay_state::stamps::{after_entry, stamp_at};
use ticks::Stamp;
use times::Nanos;

// How many bytes of a trace are written out before they run.
pub const LONG: usize = 4096;

// A record has at most so many bytes.
const RECORD: usize = 17;

// The bytes of an entry: a stamp, and the longest record.
const WHOLE: usize = 21;

// Room for the answers of an entry: of two advances, and of the record.
const ANSWERS: usize = 24;

// Room for the bytes of an entry: of two advances, and of the longest record.
pub const BYTES: usize = 27;

// Bytes of the input, from `from` on, go to a trace, from `at` on.
pub fn put_bytes(trace: &mut [u8], at: usize, input: &[u8], from: usize, size: usize)
    requires { (at + size ≤ length trace.old) × (from + size ≤ length input.now) }
    ensures { trace.new ≡ paste trace.old at (drop from input.now) size }
{
    trace[at..at + size].copy_from_slice(&input[from..from + size]);
}

// The same, one by one, where how many they are is known only when the program runs.
pub fn put_each(trace: &mut [u8], at: usize, input: &[u8], from: usize, size: usize)
    requires { (at + size ≤ length trace.old) × (from + size ≤ length input.now) }
    ensures { trace.new ≡ paste trace.old at (drop from input.now) size }
{
    for i in 0..size {
        trace[at + i] = input[from + i];
    }
}

// An advance goes to a trace, from `at` on.
pub fn put_advance(trace: &mut [u8], at: usize, by: Nanos)
    requires { at + 5 ≤ length trace.old }
    ensures { trace.new ≡ paste trace.old at (advance by) 5 }
{
    let [a, b, c, d, ..] = times::nanos_number(by).to_le_bytes();
    put_bytes(trace, at, &[1, a, b, c, d], 0, 5);
}

// The advances go to a trace, from `at` on; gives where they end.
fn put_advances(trace: &mut [u8], at: usize, due: Due) -> usize
    requires { at + 10 ≤ length trace.old }
    ensures value { result ≡ at + 5 * length (advances_in due) }
    ensures trace_after { trace.new ≡ paste trace.old at (advance_bytes (advances_in due)) (5 * length (advances_in due)) }
{
    match due {
        Due::Nothing => at,
        Due::One(first) => {
            put_advance(trace, at, first);
            at + 5
        }
        Due::Two(first, second) => {
            put_advance(&mut *trace, at, first);
            put_advance(trace, at + 5, second);
            at + 10
        }
    }
}

// How many bytes a record of an entry has; 0 where an entry has none of this kind.
fn size_in_entry(kind: u8) -> usize
    ensures { result ≡ size_in_entry kind }
{
    if kind == 1 { 0 } else { size_of(kind) }
}

// Kept: stamp, place and room change one by one in the loop below, and a struct of them would be made for this call alone.
// The entry at `at`, if it can be written out: as many bytes are there as the longest has, the recorder did not go back, and there is room for its
// bytes and for its answers.
fn next_entry(before: Stamp, input: &[u8], at: usize, space: usize, room: usize) -> Option<Entry>
    requires { at ≤ length input.now }
    ensures { IfSome result (λ e. StandsNext before input.now at space room e) }
{
    if input.len() - at < WHOLE || space < ANSWERS || room < BYTES {
        return None;
    }
    let stamp = stamp_at(input, at);
    let d = ticks::difference(before, stamp);
    let size = size_in_entry(input[at + 4]);
    if ticks::went_back(d) || size == 0 {
        return None;
    }
    let due = advances_of(ticks::in_nanos(d));
    Some(Entry { size, stamp, due })
}

// Kept: the place goes beside the whole input, and the trace is a `&mut` slice, so that a struct of them needs a clause on its ghost name.
// ENTRIES, as many as can be written out, from `from` on.
pub fn write_entries(
    earlier: Stamp,
    input: &[u8],
    from: usize,
    space: usize,
    trace: &mut [u8],
) -> Stretch
    requires { from ≤ length input.now }
    ensures between { Between result.replay }
    ensures written_out { WrittenOut (after_entry earlier) space from input.now (progress_in result.replay) result.at result.answers (take result.len trace.new) }
    ensures len_in_bounds { result.len ≤ length trace.old }
{
    let mut before = earlier;
    let mut at = from;
    let mut len: usize = 0;
    let mut left = space;
    // Kept: each turn goes as far as its entry does, and counts no index.
    while let Some(e) = next_entry(before, input, at, left, trace.len() - len) {
        let end = put_advances(&mut *trace, len, e.due);
        // As many bytes as the longest record has, so that the count is known when the program is built.
        put_bytes(&mut *trace, end, input, at + 4, RECORD);
        before = e.stamp;
        at = at + 4 + e.size;
        len = end + e.size;
        left = left - 8 * usize::from(e.due.count()) - 8;
    }
    Stretch {
        len,
        answers: space - left,
        replay: after_entry(before),
        at,
    }
}
