// A record, taken from the pieces of a trace.
ghost use Rattle.std.specs.Prelude.{◌≡◌, ◌≤◌, ◌&&◌, replicate, nat_le, nat_lt, length, slice_index};
ghost use Rattle.cli_io.specs.Faults.{fault_of};

use crate::fault::Fault;
use decode::gathering::size_of;

// The bytes of the next record, as far as they were taken, with zeros after them; how many there are; and how many a record of its
// kind has, 0 where there is no such kind.
// Kept: the count stands beside the bytes, since decoding takes all 17; and size 0 is what `size_of` says of a byte that is no kind.
#[derive(Clone, Copy)]
pub struct Held {
    pub bytes: [u8; 17],
    pub count: usize,
    pub size: usize,
}

impl Held {
    pub fn new() -> Self
        ensures { result ≡ record { bytes = replicate 17 0; count = 0; size = 0 } }
    {
        Held {
            bytes: [0u8; 17],
            count: 0,
            size: 0,
        }
    }

    // Whether a record is there as a whole, or a byte that is no kind.
    pub fn is_full(&self) -> bool
        ensures { result ≡ (nat_lt 0 self.now.count && nat_le self.now.size self.now.count) }
    {
        self.count > 0 && self.count >= self.size
    }

    // A byte more; the first tells the size.
    fn take_byte(&mut self, b: u8) {
        if self.count == 0 {
            self.size = size_of(b);
        }
        if self.count < 17 {
            self.bytes[self.count] = b;
            self.count += 1;
        }
    }

    // Takes bytes until the record is whole or they end, and gives how many it took.
    pub fn take(&mut self, bytes: &[u8]) -> usize
        ensures { result ≤ length bytes.now }
    {
        for (i, &b) in bytes.iter().enumerate() {
            if self.is_full() {
                return i;
            }
            self.take_byte(b);
        }
        bytes.len()
    }

    // What is wrong where a trace ends with this.
    pub fn fault(&self) -> Option<Fault>
        ensures { result ≡ fault_of (slice_index self.now.bytes 0) self.now.count self.now.size }
    {
        Fault::of(self.bytes[0], self.count, self.size)
    }
}
