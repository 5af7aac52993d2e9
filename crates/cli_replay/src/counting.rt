// How many records of a capture have begun: its kind bytes, counted as they are consumed.
ghost use Rattle.std.specs.Prelude.{◌≡◌, ◌+◌, ◌%◌, ◌^◌};
ghost use Rattle.cli_replay.specs.Counting.{to_next, kinds_in, ahead_after};

use decode::gathering::size_of;

// How many kind bytes were consumed, and how many bytes lie before the next one.
#[derive(Clone, Copy)]
pub struct Kinds {
    pub begun: u64,
    pub ahead: usize,
}

// The first kind byte comes after the first stamp.
pub fn no_kinds() -> Kinds
    ensures { result ≡ record { begun = 0; ahead = 4 } }
{
    Kinds { begun: 0, ahead: 4 }
}

// How many bytes lie after a kind byte, before the next one.
fn to_next(kind: u8) -> usize
    ensures { result ≡ to_next kind }
{
    size_of(kind) + 3
}

// After these bytes; the count is modulo 2^64.
pub fn count_kinds(kinds: Kinds, bytes: &[u8]) -> Kinds
    ensures begun_value { result.begun ≡ (kinds.begun + kinds_in kinds.ahead bytes.now) % 2 ^ 64 }
    ensures ahead_value { result.ahead ≡ ahead_after kinds.ahead bytes.now }
{
    let mut n: u64 = 0;
    let mut ahead = kinds.ahead;
    let mut rest = bytes;
    // Kept: how far the next kind byte lies is known only from this one.
    while ahead < rest.len() {
        let kind = rest[ahead];
        rest = &rest[ahead + 1..];
        ahead = to_next(kind);
        n += 1;
    }
    Kinds {
        begun: kinds.begun.wrapping_add(n),
        ahead: ahead - rest.len(),
    }
}
