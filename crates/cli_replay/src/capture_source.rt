// A capture that is replayed, whole or answer by answer with a line for each.
ghost use Rattle.std.specs.Prelude.{◌≡◌};

use crate::counting::count_kinds;
use crate::session::{ReplaySession, kind_offset, owes_advance, stamp_offset};
use cli_capture::entries::Entry;
use cli_io::output::Output;
use cli_run::memory::Memory;
use cli_run::session::Session;
use cli_run::turns::Source;
use decode::decoding::decode;
use describe_capture::capture_words::{put_advanced, put_replayed};
use feed::Fed;
use replay::Replayed;
use replay_state::stamps::stamp_in;
use text_line::LINE;

// The bench and the replay, and the entry that is replayed, as far as its bytes are read; whether only the end is printed.
#[derive(Clone, Copy)]
pub struct CaptureSource {
    pub state: ReplaySession,
    entry: Entry,
    quiet: bool,
}

fn fed_of(r: Replayed) -> Fed {
    let statuses = r.statuses;
    Fed {
        number: r.number,
        consumed: r.consumed,
        written: r.written,
        port: r.port,
        statuses,
    }
}

fn after_replay(s: ReplaySession, r: Replayed, bytes: &[u8]) -> ReplaySession {
    let n = r.consumed.min(bytes.len());
    let stopped_at = bytes.get(n).copied().unwrap_or(0);
    ReplaySession {
        session: s.session.after(fed_of(r), stopped_at),
        replay: r.replay,
        moments: r.moments,
        kinds: count_kinds(s.kinds, &bytes[..n]),
    }
}

// A call of replay.
fn replay_bytes(
    memory: &mut Memory<'_>,
    s: ReplaySession,
    bytes: &[u8],
    answers: &mut [u8],
) -> ReplaySession {
    let setup = memory.card.setup;
    let r = replay::replay(
        setup,
        s.session.port,
        s.session.statuses,
        setup.slots,
        s.replay,
        s.moments,
        &mut *memory.live,
        memory.defaults,
        &mut *memory.cells,
        bytes,
        answers,
    );
    after_replay(s, r, bytes)
}

impl CaptureSource {
    // After a set-up.
    pub fn begin(state: ReplaySession, quiet: bool) -> CaptureSource
        ensures { result.state ≡ state }
    {
        CaptureSource {
            state,
            entry: Entry::new(),
            quiet,
        }
    }

    // The line of an answer after this call: of an advance, or of the entry's record.
    fn print_call(&self, after: Session, answer: &[u8], printed: &mut Output<'_>) {
        printed.make_room(LINE);
        let before = self.state;
        let replay = before.replay;
        let stamp = stamp_in(self.entry.stamp);
        let clock = after.port.dev.clock;
        if let Some(earlier) = replay.before()
            && owes_advance(before, stamp)
        {
            let k = usize::from(replay.answered);
            let offset = stamp_offset(before);
            printed.put(|page| put_advanced(page, offset, earlier, stamp, k, clock, answer));
        } else {
            let item = decode(self.entry.held.bytes);
            let offset = kind_offset(before);
            printed.put(|page| put_replayed(page, offset, stamp, clock, item, answer));
        }
        printed.end_line();
    }
}

impl Source for CaptureSource {
    fn session(&self) -> Session {
        self.state.session
    }

    // An entry of which bytes are left is replayed to its end first.
    fn take(&mut self, bytes: &[u8], left: usize) -> usize {
        if left > 0 {
            left
        } else {
            self.entry.take(bytes)
        }
    }

    // The line comes with an answer. The entry is in hand until its record has run.
    // Kept: the trait has these parameters.
    fn feed(
        &mut self,
        memory: &mut Memory<'_>,
        bytes: &[u8],
        answers: &mut [u8],
        printed: &mut Output<'_>,
    ) {
        let state = replay_bytes(memory, self.state, bytes, &mut *answers);
        let after = state.session;
        if !self.quiet && after.written > 0 {
            self.print_call(after, answers, printed);
        }
        if self.entry.held.is_full() && after.number == 0 {
            self.entry = Entry::new();
        }
        self.state = state;
    }

    // What ended a replay early is printed with its end.
    fn print_rest(&self, _printed: &mut Output<'_>) {}
}
