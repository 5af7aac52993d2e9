// What is wrong with a trace.
ghost use Rattle.std.specs.Prelude.{◌≡◌};
ghost use Rattle.cli_io.specs.Faults.{fault_of};

use crate::files::{complain_line, name_file};
use text_line::{LINE, Page};

// A byte that is no kind, or a record that the file's end cuts off: its first byte, how many of its bytes there are, and how many it has.
#[derive(Clone, Copy, PartialEq, Eq)]
pub enum Fault {
    NoKind { kind: u8 },
    CutOff { kind: u8, count: usize, size: usize },
}

impl Fault {
    // The fault of a record of which so many bytes are there, 0 where there is none, and whose kind has so many, 0 where there is no such
    // kind.
    #[tactic(auto, unfolding(crate::specs::Faults::fault_of))]
    pub fn of(kind: u8, count: usize, size: usize) -> Option<Fault>
        ensures { result ≡ fault_of kind count size }
    {
        match (count, size) {
            (0, _) => None,
            (_, 0) => Some(Fault::NoKind { kind }),
            _ => Some(Fault::CutOff { kind, count, size }),
        }
    }

    fn put(self, line: &mut Page<'_>) {
        match self {
            Fault::NoKind { kind } => {
                line.put_hex(2, u64::from(kind));
                line.put_text(b"h is no kind: expected 01h to 0Dh");
            }
            Fault::CutOff { kind, count, size } => {
                line.put_text(b"the record of kind ");
                line.put_hex(2, u64::from(kind));
                line.put_named(b"h is cut off: expected ", size as u64);
                line.put_named(b" bytes, and there are ", count as u64);
            }
        }
    }

    // Says what is wrong at this byte of the file that argument i names.
    pub fn complain(self, rt: &HostRuntime, i: usize, offset: u64) {
        let mut room = [0u8; LINE];
        let mut line = Page::over(&mut room, 0);
        name_file(rt, i);
        line.put_named(b"byte ", offset);
        line.put_text(b": ");
        self.put(&mut line);
        complain_line(rt, &line);
    }
}
