// The end of a replay in words: what ended it early, number and counts, and the state of the bench.
use crate::session::{ReplaySession, advances_run, carried_of, fault_of, records_run};
use cli_io::output::Output;
use cli_run::ending::print_state;
use cli_run::memory::Memory;
use describe_capture::capture_words::put_replay_end;
use describe_capture::fault_words::put_fault_line;
use describe_capture::finding::fault_byte;
use text_line::LINE;

// The line of what ended the replay early, among those of the answers.
fn print_fault(out: &mut Output<'_>, s: ReplaySession) {
    let fault = fault_of(s);
    if fault.is_some() {
        out.put(|page| put_fault_line(page, fault_byte(s.session.offset, fault), fault));
        out.end_line();
    }
}

// What ended it early, unless only the end is printed; number, bytes consumed, records and advances; and the state.
pub fn print_replay_ending(
    out: &mut Output<'_>,
    memory: &Memory<'_>,
    s: ReplaySession,
    quiet: bool,
) {
    out.make_room(LINE);
    if !quiet {
        print_fault(out, s);
    }
    out.put(|page| {
        put_replay_end(
            page,
            s.session.number,
            s.session.offset,
            records_run(s),
            advances_run(s),
            carried_of(s),
            s.replay.stamp_len,
        );
    });
    out.end_line();
    print_state(out, memory, &s.session);
}

#[cfg(test)]
mod tests {
    use super::*;
    use crate::capture_source::CaptureSource;
    use crate::session::begin_replay;
    use cli_io::input::PIECE;
    use cli_io::sink::Sink;
    use cli_run::memory::{CELLS, Card, WORDS};
    use cli_run::turns::Source;
    use readiness::{Setup, blank_slot};

    // Where little room is left, what waits is written before the line of an entry, and before the end.
    #[test]
    fn lines_of_a_replay_are_whole(rt: HostRuntime) {
        let card = Card {
            setup: Setup {
                slots: 1,
                entries: [blank_slot(); 32],
                bus: 1,
                port_id: 8,
            },
            queue: 1,
            words: [0; WORDS],
        };
        let mut live = [0u32; WORDS];
        let mut cells = [0u32; CELLS];
        let mut answers = [0u8; 8];
        let mut memory = Memory::over(&card, &mut live, &mut cells);
        let session = memory.set_up();
        assert!(rt; session.is_ok());
        if let Ok(session) = session {
            let entry = [0u8, 0, 0, 0, 5];
            let mut out = Output::new(Sink::Nowhere);
            let mut source = CaptureSource::begin(begin_replay(session), false);
            source.take(&entry, 0);
            out.count = PIECE - 10;
            source.feed(&mut memory, &entry, &mut answers, &mut out);
            assert_eq!(rt;
                out.bytes[..out.count.min(PIECE)],
                b"       4           0 ticks           0 ns  link up -> 0 done\n"[..]
            );
            out.count = PIECE - 10;
            print_replay_ending(&mut out, &memory, source.state, false);
            assert_eq!(rt;
                out.bytes[..out.count.min(PIECE)],
                b"number 0 (everything fed), bytes consumed 5, records 1, advances 0\nclock 0 ns, link up\nReceived 0, Overflow 0, DRS Received 1\nCRS visibility off, FRS interrupt off, DRS signalling 0 (none)\nqueue depth 0 of 1\nslot 0: Ready\n"[..]
            );
        }
    }
}
