// What flows while a file is fed: the pieces that are read, and the lines and answers that wait to be written.
ghost use Rattle.std.specs.Prelude.{◌≡◌, None};

use cli_io::answers::Answers;
use cli_io::files::complain;
use cli_io::input::{Input, Reading};
use cli_io::output::Output;
use cli_io::sink::Sink;
use std::fs::File;
use text_line::Page;

// Where the file comes from and where the answers go, whether only the end is printed, and whether standard error shows how far it is.
#[derive(Clone, Copy)]
pub struct Way<'a> {
    pub input: &'a File,
    pub answers: Sink<'a>,
    pub quiet: bool,
    pub progress: bool,
}

// What was read and not yet fed, and how many bytes of what was taken of it are left; the lines and answers that wait to be written.
#[derive(Clone, Copy)]
pub struct Flow<'a> {
    pub input: Input<'a>,
    pub left: usize,
    pub printed: Output<'a>,
    pub kept: Answers<'a>,
    pub quiet: bool,
    progress: bool,
}

// On a terminal, every 16 MB show how far a long file is.
const STRIDE: u64 = 16777216;

fn complain_progress(rt: &HostRuntime, megabytes: u64) {
    let mut room = [0u8; 32];
    let mut page = Page::over(&mut room, 0);
    page.put_named(b"\r", megabytes);
    page.put_text(b" MB");
    complain(rt, page.text());
}

impl<'a> Flow<'a> {
    ghost use Rattle.cli_io.specs.declared.input.Reading.{Reading};

    pub fn new(rt: &'a HostRuntime, way: Way<'a>) -> Flow<'a>
        ensures from_value { result.input.from ≡ 0 }
        ensures to_value { result.input.to ≡ 0 }
        ensures reading_value { result.input.reading ≡ Reading.Goes }
        ensures nothing_left { result.left ≡ 0 }
        ensures nothing_printed { result.printed.count ≡ 0 }
        ensures printed_fresh { result.printed.writer.failed ≡ None }
        ensures nothing_kept { result.kept.count ≡ 0 }
        ensures kept_fresh { result.kept.writer.failed ≡ None }
        ensures quiet_value { result.quiet ≡ way.entry.quiet }
    {
        Flow {
            input: Input::new(way.input),
            left: 0,
            printed: Output::new(Sink::Output(rt)),
            kept: Answers::new(way.answers),
            quiet: way.quiet,
            progress: way.progress,
        }
    }

    // Whether everything could be read and written so far.
    pub fn is_whole(&self) -> bool {
        let read = !matches!(self.input.reading(), Reading::Failed(_));
        read && self.printed.written().is_ok() && self.kept.written().is_ok()
    }

    fn show_progress(&self, rt: &HostRuntime, offset: u64) {
        if self.progress && offset > 0 && offset % STRIDE < 65536 {
            complain_progress(rt, offset / 1048576);
        }
    }

    // The line of the progress ends.
    pub fn end_progress(&self, rt: &HostRuntime, offset: u64) {
        if self.progress && offset >= STRIDE {
            complain(rt, b"\n");
        }
    }

    // The next piece is read, `offset` bytes after the first; the lines that wait are written before.
    pub fn read_on(&mut self, rt: &HostRuntime, offset: u64)
        ensures { self.new.left ≡ 0 }
    {
        self.show_progress(rt, offset);
        let _ = self.printed.flush();
        self.input.read_on();
        self.left = 0;
    }
}
