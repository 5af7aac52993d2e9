// A file that is read in pieces.
ghost use Rattle.std.specs.Prelude.{◌≡◌, ◌≤◌, ◌+◌, ◌-◌, min, length};

use crate::failure::Failure;
use std::fs::File;
use std::io::Read;

// How much is read at once.
pub const PIECE: usize = 65536;

// Whether there may be more to read.
#[derive(Clone, Copy, PartialEq, Eq)]
pub enum Reading {
    Goes,
    Ended,
    Failed(Failure),
}

// A file, and what was read of it and not yet taken: its bytes from `from` up to `to`.
// Kept: `from` and `to` stand beside the bytes, since a Vec needs a heap.
#[derive(Clone, Copy)]
pub struct Input<'a> {
    file: &'a File,
    bytes: [u8; PIECE],
    pub from: usize,
    pub to: usize,
    reading: Reading,
    ghost order: { from ≤ to },
    ghost within: { to ≤ 65536 },
}

impl<'a> Input<'a> {
    ghost use Rattle.cli_io.specs.declared.input.Reading.{Reading};

    pub fn new(file: &'a File) -> Self
        ensures from_value { result.from ≡ 0 }
        ensures to_value { result.to ≡ 0 }
        ensures reading_value { result.reading ≡ Reading.Goes }
    {
        Input {
            file,
            bytes: [0u8; PIECE],
            from: 0,
            to: 0,
            reading: Reading::Goes,
        }
    }

    // What was read and not yet taken.
    pub fn unread(&self) -> &[u8]
        ensures { length result.now ≡ self.now.to - self.now.from }
    {
        &self.bytes[self.from..self.to]
    }

    // So many bytes more are taken, or all.
    pub fn pass(&mut self, n: usize)
        ensures { self.new.from ≡ min (self.old.from + n) self.old.to }
    {
        self.from += n.min(self.to - self.from);
    }

    // Reads the next piece, which stands from the first byte on.
    pub fn read_on(&mut self)
        ensures { self.new.from ≡ 0 }
    {
        let mut file = self.file;
        self.from = 0;
        self.to = 0;
        match file.read(&mut self.bytes) {
            Ok(n) => {
                self.to = n;
                if n == 0 {
                    self.reading = Reading::Ended;
                }
            }
            Err(e) => self.reading = Reading::Failed(Failure::from(e)),
        }
    }

    pub fn reading(&self) -> Reading
        ensures { result ≡ self.now.reading }
    {
        self.reading
    }
}
