// A capture, taken entry by entry.
ghost use Rattle.std.specs.Prelude.{◌≡◌, ◌≤◌, replicate, length};

use cli_io::held::Held;

// The bytes of the next entry, as far as they were taken: those of its stamp, with zeros after them, how many there are, and those of its
// record.
// Kept: the count stands beside the stamp's bytes, since a stamp is read from all four.
#[derive(Clone, Copy)]
pub struct Entry {
    pub stamp: [u8; 4],
    pub stamp_len: usize,
    pub held: Held,
}

impl Entry {
    pub fn new() -> Self
        ensures { result ≡ record { stamp = replicate 4 0; stamp_len = 0; held = record { bytes = replicate 17 0; count = 0; size = 0 } } }
    {
        Entry {
            stamp: [0u8; 4],
            stamp_len: 0,
            held: Held::new(),
        }
    }

    // Takes bytes until the stamp is whole or they end, and gives how many it took.
    fn take_stamp(&mut self, bytes: &[u8]) -> usize
        ensures { result ≤ length bytes.now }
    {
        for (i, &b) in bytes.iter().enumerate() {
            if self.stamp_len >= 4 {
                return i;
            }
            self.stamp[self.stamp_len] = b;
            self.stamp_len += 1;
        }
        bytes.len()
    }

    // Takes bytes until the entry is whole or they end, and gives how many it took.
    pub fn take(&mut self, bytes: &[u8]) -> usize
        ensures { result ≤ length bytes.now }
    {
        let n = self.take_stamp(bytes);
        n + self.held.take(&bytes[n..])
    }
}
