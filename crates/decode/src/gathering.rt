// A call's trace, the carried bytes and then the input, record by record; answers, and the bytes carried to the next call.
ghost use Rattle.std.specs.Prelude.{◌≡◌, ◌++◌, ◌+◌, ◌≤◌, ◌<◌, length, get_or, take, drop, MatchOption};
ghost use Rattle.std.proofs.Math.Seq.{paste};
ghost use Rattle.trace.specs.Format.{size_of, pad, next};
ghost use Rattle.trace.specs.inner.Gathered.{whole_size};
ghost use Rattle.decode.specs.inner.Gathering.{ending_of, StandsNext};

use crate::decoding::decode_at;
use crate::{Ending, Found};

// How many bytes a record of each kind has, its byte of kind with them; 0 where there is no such kind.
#[tactic(auto, unfolding(trace::specs::Format::size_of))]
pub fn size_of(kind: u8) -> usize
    ensures { result ≡ size_of kind }
{
    // Kept: the byte of kind and the table of sizes with 0 for no kind, as `trace/Format.size_of` has it.
    match kind {
        0x01 => 5,
        0x02 => 4,
        0x03 => 8,
        0x04 => 17,
        0x05 => 1,
        0x06 => 1,
        0x07 => 1,
        0x08 => 1,
        0x09 => 1,
        0x0A => 2,
        0x0B => 2,
        0x0C => 7,
        0x0D => 1,
        _ => 0,
    }
}

// Byte j of a call's trace: what is carried, and then the input.
fn trace_byte(carried: &[u8], len: usize, input: &[u8], j: usize) -> u8
    requires { (len ≤ length carried.now) × (j < len + length input.now) }
    ensures { result ≡ get_or (take len carried.now ++ input.now) j 0 }
{
    if j < len { carried[j] } else { input[j - len] }
}

// How many bytes the record in front of a call's trace has, if it is whole and there is room for its answer; else 0.
pub fn whole_size(carried: &[u8], len: usize, input: &[u8], space: usize) -> usize
    requires { len ≤ length carried.now }
    ensures { result ≡ whole_size space (next (take len carried.now ++ input.now)) }
{
    let there = len + input.len();
    if there == 0 {
        return 0;
    }
    let size = size_of(trace_byte(carried, len, input, 0));
    if there < size {
        return 0;
    }
    if space < 8 {
        return 0;
    }
    size
}

// The record at `at` in the input, if it is whole and there is room for its answer.
pub fn next_record(input: &[u8], at: usize, space: usize) -> Option<Found>
    requires { at ≤ length input.now }
    ensures { MatchOption result (whole_size space (next (drop at input.now)) ≡ 0) (StandsNext space (drop at input.now)) }
{
    if input.len() <= at {
        return None;
    }
    let size = size_of(input[at]);
    if input.len() < at + size || space < 8 || size == 0 {
        return None;
    }
    Some(Found {
        record: decode_at(input, at),
        size,
    })
}

// The end of a call that completes no record of its trace: no byte is there, a kind that there is not, the start of a record, or a whole one, for
// which there is no room.
pub fn ending(carried: &[u8], len: usize, input: &[u8]) -> Ending
    requires { len ≤ length carried.now }
    ensures { result ≡ ending_of (take len carried.now ++ input.now) }
{
    let there = len + input.len();
    if there == 0 {
        return Ending {
            number: 0,
            count: 0,
        };
    }
    let size = size_of(trace_byte(carried, len, input, 0));
    if size == 0 {
        return Ending {
            number: 31,
            count: 0,
        };
    }
    if there < size {
        return Ending {
            number: 0,
            count: there,
        };
    }
    Ending {
        number: 30,
        count: size - 1,
    }
}

// The first n bytes of a call's trace, and zeros after them.
pub fn first_bytes<const N: usize>(carried: &[u8], len: usize, input: &[u8], n: usize) -> [u8; N]
    requires { (len ≤ length carried.now) × (n ≤ N) × (n ≤ len + length input.now) }
    ensures { result ≡ pad N (take n (take len carried.now ++ input.now)) }
{
    let mut bytes = [0; N];
    for j in 0..n {
        bytes[j] = trace_byte(carried, len, input, j);
    }
    bytes
}

// The 8 bytes of an answer go to `answers`, from `at` on.
pub fn put_answer(answers: &mut [u8], at: usize, answer: [u8; 8])
    requires { at + 8 ≤ length answers.old }
    ensures { answers.new ≡ paste answers.old at answer 8 }
{
    answers[at..at + 8].copy_from_slice(&answer);
}
