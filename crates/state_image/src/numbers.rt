// Numbers in byte slices, low byte first. What lies past a slice's end reads as 0, and is not written.
ghost use Rattle.std.specs.Prelude.{◌≡◌, ◌-◌, ◌<◌, ◌≤◌, ◌^◌, length, set};
ghost use Rattle.std.proofs.lemmas.List.Edits.{sets};
ghost use Rattle.bits.specs.Bits.{one};
ghost use Rattle.state_layout.specs.Numbers.{low_first, number_at, word_bytes, words_in};

pub use bits::{byte_at, usize_of_u8 as size_of_byte, usize_of_u16 as size};

// Kept in this file: `bytes` and `at` stay two parameters, since the caller lends the image and `state_layout` fixes where each number stands; a cursor would hide the place.

// ---- Reading

// Two bytes from an index on.
// Kept: each width gives its own type of number, so that one function over a count of bytes would leave the casts to every caller.
pub fn two_at(bytes: &[u8], at: usize) -> u16
    requires { at < 2 ^ 63 }
    ensures { result ≡ number_at 2 at bytes.now }
{
    u16::from_le_bytes([byte_at(bytes, at), byte_at(bytes, at + 1)])
}

// Four bytes from an index on.
pub fn four_at(bytes: &[u8], at: usize) -> u32
    requires { at < 2 ^ 63 }
    ensures { result ≡ number_at 4 at bytes.now }
{
    u32::from_le_bytes([
        byte_at(bytes, at),
        byte_at(bytes, at + 1),
        byte_at(bytes, at + 2),
        byte_at(bytes, at + 3),
    ])
}

// Eight bytes from an index on.
// Kept: of two halves, since a list of its eight bytes would be no plainer.
pub fn eight_at(bytes: &[u8], at: usize) -> u64
    requires { at < 2 ^ 62 }
    ensures { result ≡ number_at 8 at bytes.now }
{
    u64::from(four_at(bytes, at)) + 4294967296 * u64::from(four_at(bytes, at + 4))
}

// Words from their bytes.
pub fn words_from(bytes: &[u8], words: &mut [u32])
    ensures { words.new ≡ words_in (length words.old) bytes.now }
{
    for i in 0..words.len() {
        words[i] = four_at(bytes, 4 * i);
    }
}

// ---- Writing

// Puts a byte at an index, if it is there.
pub fn put(bytes: &mut [u8], at: usize, b: u8)
    ensures { bytes.new ≡ set bytes.old at b }
{
    if at < bytes.len() {
        bytes[at] = b;
    }
}

// Yes as 1, no as 0.
pub fn put_bool(bytes: &mut [u8], at: usize, b: bool)
    ensures { bytes.new ≡ set bytes.old at (one b) }
{
    put(bytes, at, u8::from(b));
}

// Puts the n low bytes of a number.
// Kept: here and below `at < 2 ^ 64 - 8` is what adding to an index needs; a type for it would be made of a constant at every call.
fn put_low(bytes: &mut [u8], at: usize, n: usize, x: u64)
    requires { (at < 2 ^ 64 - 8) × (n ≤ 8) }
    ensures { bytes.new ≡ sets bytes.old at (low_first n x) }
{
    let mut rest = x;
    for i in 0..n {
        put(&mut *bytes, at + i, (rest % 256) as u8);
        rest /= 256;
    }
}

// Puts the low two bytes of a number.
// Kept: three names for `put_low` at the widths of the layout, so that no call gives a count or a cast.
pub fn put_two(bytes: &mut [u8], at: usize, x: usize)
    requires { at < 2 ^ 64 - 8 }
    ensures { bytes.new ≡ sets bytes.old at (low_first 2 x) }
{
    put_low(bytes, at, 2, x as u64);
}

// Puts the low four bytes of a number.
pub fn put_four(bytes: &mut [u8], at: usize, x: u64)
    requires { at < 2 ^ 64 - 8 }
    ensures { bytes.new ≡ sets bytes.old at (low_first 4 x) }
{
    put_low(bytes, at, 4, x);
}

// Puts eight bytes.
pub fn put_eight(bytes: &mut [u8], at: usize, x: u64)
    requires { at < 2 ^ 64 - 8 }
    ensures { bytes.new ≡ sets bytes.old at (low_first 8 x) }
{
    put_low(bytes, at, 8, x);
}

// Puts words from an index on, four bytes each.
pub fn put_words_at(bytes: &mut [u8], at: usize, words: &[u32])
    requires { at < 2 ^ 62 }
    ensures { bytes.new ≡ sets bytes.old at (word_bytes words.now) }
{
    for i in 0..words.len() {
        put_four(&mut *bytes, at + 4 * i, u64::from(words[i]));
    }
}

// Puts words at the front.
pub fn put_words(bytes: &mut [u8], words: &[u32])
    ensures { bytes.new ≡ sets bytes.old 0 (word_bytes words.now) }
{
    put_words_at(bytes, 0, words);
}
