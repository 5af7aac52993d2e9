// Why a read or a write failed.
ghost use Rattle.std.specs.Prelude.{◌≡◌, pos, ◌<ℤ◌, ◌↔◌, IsSome, IfSome};

use crate::files::{complain, complain_line, name_file};
use std::io;
use text_line::{LINE, Page};

// The number of a system's error, which is never 0.
#[derive(Clone, Copy, PartialEq, Eq)]
pub struct ErrorNumber {
    number: i32,
    ghost positive: { pos 0 <ℤ number },
}

impl ErrorNumber {
    // The number, where a system's error can have it.
    pub fn new(number: i32) -> Option<ErrorNumber>
        ensures some { IsSome result ↔ pos 0 <ℤ number }
        ensures value { IfSome result (λ error. error.number ≡ number) }
    {
        if number > 0 {
            Some(ErrorNumber { number })
        } else {
            None
        }
    }
}

// What the system's error means; any other has its number.
#[derive(Clone, Copy, PartialEq, Eq)]
pub enum Failure {
    Interrupted,
    Device,
    NotOpen,
    Full,
    TooLarge,
    Directory,
    Other(ErrorNumber),
}

// The numbers of the system's errors.
const EINTR: i32 = 4;

const EIO: i32 = 5;

const EBADF: i32 = 9;

const EISDIR: i32 = 21;

const EFBIG: i32 = 27;

const ENOSPC: i32 = 28;

// An error that has no number is one of input or output.
impl From<io::Error> for Failure {
    fn from(e: io::Error) -> Self {
        match e.raw_os_error() {
            Some(EINTR) => Failure::Interrupted,
            Some(EBADF) => Failure::NotOpen,
            Some(ENOSPC) => Failure::Full,
            Some(EFBIG) => Failure::TooLarge,
            Some(EISDIR) => Failure::Directory,
            Some(number) if number > 0 && number != EIO => Failure::Other(ErrorNumber { number }),
            _ => Failure::Device,
        }
    }
}

impl Failure {
    // The number of the system's error; never 0: one that has none is an error of input or output.
    // Kept: the number is the system's own.
    pub fn number(self) -> i32
        ensures { pos 0 <ℤ result }
    {
        match self {
            Failure::Interrupted => EINTR,
            Failure::Device => EIO,
            Failure::NotOpen => EBADF,
            Failure::Full => ENOSPC,
            Failure::TooLarge => EFBIG,
            Failure::Directory => EISDIR,
            Failure::Other(error) => error.number,
        }
    }

    fn words(self) -> &'static [u8] {
        match self {
            Failure::Interrupted => b"interrupted",
            Failure::Device => b"input/output error",
            Failure::NotOpen => b"not open",
            Failure::Full => b"no space left on the device",
            Failure::TooLarge => b"the file would be too large",
            Failure::Directory => b"a directory",
            Failure::Other(_) => b"refused by the system",
        }
    }

    // Says that reading the file of argument i failed at this byte.
    pub fn complain_read(self, rt: &HostRuntime, i: usize, offset: u64) {
        let mut room = [0u8; LINE];
        let mut line = Page::over(&mut room, 0);
        name_file(rt, i);
        line.put_named(b"byte ", offset);
        line.put_text(b": can't be read further: ");
        line.put_text(self.words());
        complain_line(rt, &line);
    }

    // Says that writing failed.
    pub fn complain_write(self, rt: &HostRuntime) {
        let mut room = [0u8; LINE];
        let mut line = Page::over(&mut room, 0);
        line.put_text(b"can't be written: ");
        line.put_text(self.words());
        complain_line(rt, &line);
    }
}

// The error of a write to standard output, if there was one, is said and given back.
pub fn after_printing(rt: &HostRuntime, written: Result<(), Failure>) -> Result<(), Failure>
    ensures { result ≡ written }
{
    if let Err(failure) = written {
        complain(rt, b"standard output: ");
        failure.complain_write(rt);
    }
    written
}

#[cfg(test)]
mod tests {
    use super::*;

    #[test]
    fn errors_have_numbers_above_0(rt: HostRuntime) {
        assert!(rt; ErrorNumber::new(0).is_none());
        assert!(rt; ErrorNumber::new(-5).is_none());
        match ErrorNumber::new(38) {
            Some(number) => assert_eq!(rt; Failure::Other(number).number(), 38),
            None => assert!(rt; false),
        }
    }
}
