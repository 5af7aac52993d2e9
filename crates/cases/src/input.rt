// Bytes and words from standard input.
ghost use Rattle.std.specs.Prelude.{◌<◌};

use state_image::numbers::words_from;
use std::io::Read;

// A malformed stream: it ends where that is seen.
#[derive(Clone, Copy)]
pub struct BadCase;

// Fills all bytes, which have to be there.
pub fn fill(rt: &HostRuntime, bytes: &mut [u8]) -> Result<(), BadCase> {
    let mut from = rt.stdin();
    from.read_exact(bytes).map_err(|_| BadCase)
}

// Fills the first n bytes of a room that has as many, and gives them.
pub fn fill_first<'a>(rt: &HostRuntime, room: &'a mut [u8], n: usize) -> Result<&'a [u8], BadCase> {
    let first = room.get_mut(..n).ok_or(BadCase)?;
    fill(rt, &mut *first)?;
    Ok(first)
}

// The next byte, or the end of the input.
pub fn next_byte(rt: &HostRuntime) -> Option<u8> {
    let mut one = [0u8; 1];
    fill(rt, &mut one).ok()?;
    Some(one[0])
}

// Two bytes, low byte first.
pub fn two(low: u8, high: u8) -> usize
    ensures { result < 65536 }
{
    usize::from(u16::from_le_bytes([low, high]))
}

// Reads words, at most 4,200.
pub fn read_words(rt: &HostRuntime, words: &mut [u32]) -> Result<(), BadCase> {
    let mut room = [0u8; 16800];
    let bytes = fill_first(rt, &mut room, 4 * words.len())?;
    words_from(bytes, words);
    Ok(())
}
