// Answers that are written in large pieces: bytes wait in a buffer until it is full.
ghost use Rattle.std.specs.Prelude.{◌≡◌, ◌≤◌, ◌+◌, min, ◌↔◌, IsOk, IsNone, None};

use crate::failure::Failure;
use crate::input::PIECE;
use crate::sink::{Sink, Writer};

// The first `count` bytes wait to be written; those after them are room for more.
// Kept: the count stands beside the bytes, since the bench writes answers into the room after them, and a Vec needs a heap.
#[derive(Clone, Copy)]
pub struct Answers<'a> {
    pub bytes: [u8; PIECE],
    pub count: usize,
    pub writer: Writer<'a>,
    ghost within: { count ≤ 65536 },
}

impl<'a> Answers<'a> {
    pub fn new(to: Sink<'a>) -> Self
        ensures empty { result.count ≡ 0 }
        ensures to_value { result.writer.to ≡ to.entry }
        ensures fresh { result.writer.failed ≡ None }
    {
        Answers {
            bytes: [0u8; PIECE],
            count: 0,
            writer: Writer::new(to),
        }
    }

    // Whether everything could be written so far.
    pub fn written(&self) -> Result<(), Failure>
        ensures { IsOk result ↔ IsNone self.now.writer.failed }
    {
        self.writer.written()
    }

    // Writes what waits, so that nothing waits. Nothing is written after an error, nor where there is nowhere to write.
    pub fn flush(&mut self) -> Result<(), Failure>
        ensures empty { self.new.count ≡ 0 }
        ensures to_value { self.new.writer.to ≡ self.old.writer.to }
    {
        let mut writer = self.writer;
        let written = writer.write(&self.bytes[..self.count]);
        self.writer = writer;
        self.count = 0;
        written
    }

    // Makes room for so many bytes more.
    pub fn make_room(&mut self, wanted: usize)
        ensures shorter { self.new.count ≤ self.old.count }
        ensures to_value { self.new.writer.to ≡ self.old.writer.to }
    {
        if PIECE - self.count < wanted {
            let _ = self.flush();
        }
    }

    // So many bytes more wait, as far as there is room.
    pub fn wrote(&mut self, n: usize)
        ensures count_value { self.new.count ≡ min (self.old.count + n) 65536 }
        ensures to_value { self.new.writer.to ≡ self.old.writer.to }
    {
        self.count += n.min(PIECE - self.count);
    }
}
