// Output that is written in large pieces: text waits until it is long.
ghost use Rattle.std.specs.Prelude.{◌≡◌, ◌≤◌, ◌↔◌, IsOk, IsNone, None};
ghost use Rattle.std.specs.Fn.{FnOnceReturnsAtMut};
ghost use Rattle.cli_io.specs.Putting.{Puts};

use crate::failure::Failure;
use crate::input::PIECE;
use crate::sink::{Sink, Writer};
use text_line::{LINE, Page};

// The first `count` bytes wait to be written; those after them are room for more.
#[derive(Clone, Copy)]
pub struct Output<'a> {
    pub bytes: [u8; PIECE],
    pub count: usize,
    pub writer: Writer<'a>,
}

// Puts a text on the page over a line, whose next text goes to an index: the index after it.
fn put_at<F: FnOnce(&mut Page<'_>) + Drop>(line: &mut [u8], at: usize, text: F) -> usize
    requires { F.IsAlwaysCallable text }
    ensures { Puts (λ given left. FnOnceReturnsAtMut F.FnOnce text given tt left) at line.old result line.new }
{
    let mut page = Page::over(line, at);
    text(&mut page);
    page.close()
}

impl<'a> Output<'a> {
    pub fn new(to: Sink<'a>) -> Self
        ensures empty { result.count ≡ 0 }
        ensures to_value { result.writer.to ≡ to.entry }
        ensures fresh { result.writer.failed ≡ None }
    {
        Output {
            bytes: [0; PIECE],
            count: 0,
            writer: Writer::new(to),
        }
    }

    // Whether everything could be written so far.
    pub fn written(&self) -> Result<(), Failure>
        ensures { IsOk result ↔ IsNone self.now.writer.failed }
    {
        self.writer.written()
    }

    // Writes what waits, so that nothing waits. Nothing is written after an error, nor where there is nowhere to write.
    pub fn flush(&mut self) -> Result<(), Failure>
        ensures empty { self.new.count ≡ 0 }
        ensures to_value { self.new.writer.to ≡ self.old.writer.to }
    {
        let written = self.writer.write(&self.bytes[..self.count.min(PIECE)]);
        self.count = 0;
        written
    }

    // Makes room for so many bytes more.
    pub fn make_room(&mut self, wanted: usize)
        ensures shorter { self.new.count ≤ self.old.count }
        ensures to_value { self.new.writer.to ≡ self.old.writer.to }
    {
        if PIECE.saturating_sub(self.count) < wanted {
            let _ = self.flush();
        }
    }

    // Puts a text behind what waits, as far as there is room.
    pub fn put<F: FnOnce(&mut Page<'_>) + Drop>(&mut self, text: F)
        requires { F.IsAlwaysCallable text }
        ensures text { Puts (λ given left. FnOnceReturnsAtMut F.FnOnce text given tt left)
            self.old.count self.old.bytes self.new.count self.new.bytes }
        ensures to_value { self.new.writer.to ≡ self.old.writer.to }
    {
        self.count = put_at(&mut self.bytes, self.count, text);
    }

    fn put_end(&mut self)
        ensures { self.new.writer.to ≡ self.old.writer.to }
    {
        self.put(|page| page.put_byte(b'\n'));
    }

    // The end of a line after which there is no room for the next, or none for the end itself.
    #[cold]
    #[inline(never)]
    fn end_last(&mut self)
        ensures { self.new.writer.to ≡ self.old.writer.to }
    {
        self.make_room(1);
        self.put_end();
        self.make_room(LINE);
    }

    // The line that was put ends. Afterwards there is room for the next.
    pub fn end_line(&mut self)
        ensures { self.new.writer.to ≡ self.old.writer.to }
    {
        if PIECE.saturating_sub(self.count) > LINE {
            self.put_end();
        } else {
            self.end_last();
        }
    }
}

#[cfg(test)]
mod tests {
    use super::*;

    // Where no byte more fits, what waits is written first, and the end of the line waits.
    #[test]
    fn full_output_ends_its_line(rt: HostRuntime) {
        let mut out = Output::new(Sink::Nowhere);
        out.count = PIECE;
        out.end_line();
        let first = out.bytes[0];
        assert_eq!(rt; out.count, 1);
        assert_eq!(rt; first, b'\n');
    }
}
