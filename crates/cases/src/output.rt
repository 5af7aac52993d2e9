// Bytes and words to standard output.
use state_image::numbers::put_words;

pub fn write_bytes(rt: &HostRuntime, bytes: &[u8]) {
    let _ = Print::write_all(rt, bytes);
}

// Writes the first n bytes, if there are as many.
pub fn write_first(rt: &HostRuntime, bytes: &[u8], n: usize) {
    if let Some(first) = bytes.get(..n) {
        write_bytes(rt, first);
    }
}

// Writes words, at most 4,200.
pub fn write_words(rt: &HostRuntime, words: &[u32]) {
    let mut bytes = [0u8; 16800];
    put_words(&mut bytes, words);
    write_first(rt, &bytes, 4 * words.len());
}
