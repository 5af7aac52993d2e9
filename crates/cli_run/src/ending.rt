// The end of a run in words: number and counts, and the state of the bench.
use crate::memory::Memory;
use crate::session::Session;
use cli_io::output::Output;
use describe_state::state_words::{
    put_link, put_port_bits, put_port_control, put_queue, put_queued, put_slot,
};
use describe_trace::trace_words::put_end;
use frs_queue::Queue;
use readiness::Dev;
use text_line::LINE;

// Clock and link, and port bits.
fn print_port(out: &mut Output<'_>, dev: Dev) {
    out.put(|page| put_link(page, dev));
    out.end_line();
    out.put(|page| put_port_bits(page, dev));
    out.end_line();
    out.put(|page| put_port_control(page, dev.control));
    out.end_line();
}

// The depth of the queue, and its messages, oldest first.
fn print_queue(out: &mut Output<'_>, queue: Queue, cells: &[u32]) {
    out.put(|page| put_queue(page, queue.depth, cells.len()));
    out.end_line();
    for i in 0..queue.depth {
        out.put(|page| {
            page.put_text(b"  ");
            put_queued(page, cells, queue.start, i);
        });
        out.end_line();
    }
}

// The state of the bench: clock and link; port bits; queue; and the card's slots.
pub fn print_state(out: &mut Output<'_>, memory: &Memory<'_>, s: &Session) {
    out.make_room(LINE);
    let dev = s.port.dev;
    print_port(out, dev);
    print_queue(out, dev.queue, &*memory.cells);
    let slots = memory.card.setup.slots;
    for (slot, status) in s.statuses.iter().take(slots).enumerate() {
        out.put(|page| put_slot(page, slot, status.phase));
        out.end_line();
    }
}

// Number, bytes consumed and records; and the state.
pub fn print_ending(out: &mut Output<'_>, memory: &Memory<'_>, s: &Session) {
    out.make_room(LINE);
    out.put(|page| put_end(page, s.number, s.offset, s.records, s.port.carried_len));
    out.end_line();
    print_state(out, memory, s);
}

#[cfg(test)]
mod tests {
    use super::*;
    use crate::memory::{CELLS, Card, WORDS};
    use crate::trace_source::TraceSource;
    use crate::turns::Source;
    use cli_io::input::PIECE;
    use cli_io::sink::Sink;
    use readiness::{Setup, blank_slot};

    // Where little room is left, what waits is written before the line of a call, of what is left of a record, and of the end.
    #[test]
    fn lines_of_a_run_are_whole(rt: HostRuntime) {
        let card = Card {
            setup: Setup {
                slots: 1,
                entries: [blank_slot(); 32],
                bus: 1,
                port_id: 8,
            },
            queue: 1,
            words: [0; WORDS],
        };
        let mut live = [0u32; WORDS];
        let mut cells = [0u32; CELLS];
        let mut answers = [0u8; 8];
        let mut memory = Memory::over(&card, &mut live, &mut cells);
        let session = memory.set_up();
        assert!(rt; session.is_ok());
        if let Ok(session) = session {
            let mut out = Output::new(Sink::Nowhere);
            out.count = PIECE - 10;
            print_ending(&mut out, &memory, &session);
            assert_eq!(rt;
                out.bytes[..out.count.min(PIECE)],
                b"number 0 (everything fed), bytes consumed 0, records 0\nclock 0 ns, link down\nReceived 0, Overflow 0, DRS Received 0\nCRS visibility off, FRS interrupt off, DRS signalling 0 (none)\nqueue depth 0 of 1\nslot 0: Down\n"[..]
            );
            out.count = PIECE - 10;
            print_state(&mut out, &memory, &session);
            assert_eq!(rt;
                out.bytes[..out.count.min(PIECE)],
                b"clock 0 ns, link down\nReceived 0, Overflow 0, DRS Received 0\nCRS visibility off, FRS interrupt off, DRS signalling 0 (none)\nqueue depth 0 of 1\nslot 0: Down\n"[..]
            );
            let mut unknown = TraceSource::begin(session);
            unknown.take(&[0xFF], 0);
            out.count = PIECE - 10;
            unknown.feed(&mut memory, &[0xFF], &mut answers, &mut out);
            assert_eq!(rt;
                out.bytes[..out.count.min(PIECE)],
                b"       0  unknown kind FFh (kinds are 01h to 0Dh): the trace is broken here\n"[..]
            );
            let mut incomplete = TraceSource::begin(session);
            incomplete.take(&[0x01], 0);
            incomplete.feed(&mut memory, &[0x01], &mut answers, &mut out);
            out.count = PIECE - 10;
            incomplete.print_rest(&mut out);
            assert_eq!(rt;
                out.bytes[..out.count.min(PIECE)],
                b"       0  incomplete record of kind 01h: the file has 1 of its 5 bytes\n"[..]
            );
        }
    }
}
