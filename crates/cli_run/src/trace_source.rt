// A trace that is fed, whole or record by record with a line for each.
ghost use Rattle.std.specs.Prelude.{◌≡◌};

use crate::memory::Memory;
use crate::session::Session;
use crate::turns::Source;
use cli_io::held::Held;
use cli_io::output::Output;
use decode::decoding::decode;
use decode::gathering::size_of;
use describe_trace::trace_words::{put_incomplete, put_run, put_unknown};
use text_line::LINE;

// The bench, and the record that is fed, as far as its bytes are read.
#[derive(Clone, Copy)]
pub struct TraceSource {
    pub session: Session,
    held: Held,
}

impl TraceSource {
    // After a set-up.
    pub fn begin(session: Session) -> TraceSource
        ensures { result.session ≡ session }
    {
        TraceSource {
            session,
            held: Held::new(),
        }
    }

    // The line of a record that was run, or of a byte that is no kind, after this call.
    fn print_call(&self, after: Session, answer: &[u8], printed: &mut Output<'_>) {
        printed.make_room(LINE);
        let offset = self.session.record_offset();
        let bytes = self.held.bytes;
        if after.number == 31 {
            printed.put(|page| put_unknown(page, offset, bytes[0]));
        } else {
            let clock = after.port.dev.clock;
            printed.put(|page| put_run(page, offset, clock, decode(bytes), answer));
        }
        printed.end_line();
    }
}

impl Source for TraceSource {
    fn session(&self) -> Session {
        self.session
    }

    fn take(&mut self, bytes: &[u8], _left: usize) -> usize {
        self.held.take(bytes)
    }

    // The line comes where a whole record was fed, or a byte that is no kind.
    // Kept: the trait has these parameters.
    fn feed(
        &mut self,
        memory: &mut Memory<'_>,
        bytes: &[u8],
        answers: &mut [u8],
        printed: &mut Output<'_>,
    ) {
        let after = memory.feed(self.session, bytes, &mut *answers);
        if self.held.is_full() {
            self.print_call(after, answers, printed);
            self.held = Held::new();
        }
        self.session = after;
    }

    fn print_rest(&self, printed: &mut Output<'_>) {
        let port = self.session.port;
        if port.carried_len > 0 {
            let kind = port.carried[0];
            printed.make_room(LINE);
            let offset = self.session.record_offset();
            printed.put(|page| put_incomplete(page, offset, kind, port.carried_len, size_of(kind)));
            printed.end_line();
        }
    }
}
