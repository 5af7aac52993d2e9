// `otsnebura show TRACE`: the records in words, up to the first unknown kind or an incomplete end.
use crate::shown::{Shown, show_file};
use cli_io::held::Held;
use cli_io::input::Input;
use cli_io::output::Output;
use cli_io::stop::Stop;
use describe_trace::trace_words::{put_incomplete, put_shown, put_totals, put_unknown};
use std::fs::File;
use std::ops::ControlFlow;
use text_line::Page;

// How far the reading is: bytes and records shown, and the record in hand.
#[derive(Clone, Copy)]
struct Trace {
    offset: u64,
    records: u64,
    held: Held,
}

impl Trace {
    // The line of what is held: a record, a part of one, or a byte that is no kind.
    fn print_held(&self, out: &mut Output<'_>) {
        let Held { bytes, count, size } = self.held;
        if size == 0 {
            out.put(|page| put_unknown(page, self.offset, bytes[0]));
        } else if count < size {
            out.put(|page| put_incomplete(page, self.offset, bytes[0], count, size));
        } else {
            out.put(|page| put_shown(page, self.offset, decode::decoding::decode(bytes)));
        }
        out.end_line();
    }
}

impl Shown for Trace {
    // A byte that is no kind ends the showing.
    fn show_next(&mut self, input: &mut Input<'_>, out: &mut Output<'_>) -> ControlFlow<()> {
        let n = self.held.take(input.unread());
        input.pass(n);
        if self.held.is_full() {
            self.print_held(&mut *out);
            if self.held.size == 0 {
                return ControlFlow::Break(());
            }
            self.offset = self.offset.wrapping_add(self.held.size as u64);
            self.records = self.records.wrapping_add(1);
            self.held = Held::new();
        }
        ControlFlow::Continue(())
    }

    fn show_rest(&mut self, out: &mut Output<'_>) {
        if self.held.count > 0 {
            self.print_held(&mut *out);
        }
    }

    fn put_totals(&self, page: &mut Page<'_>) {
        put_totals(&mut *page, self.records, self.offset);
    }

    fn next_byte(&self) -> u64 {
        self.offset.wrapping_add(self.held.count as u64)
    }

    fn verdict(&self, rt: &HostRuntime, i: usize) -> Result<(), Stop> {
        match self.held.fault() {
            Some(fault) => {
                fault.complain(rt, i, self.offset);
                Err(Stop::Refused)
            }
            None => Ok(()),
        }
    }
}

// Shows a trace; argument i names it.
pub fn show(rt: &HostRuntime, file: &File, i: usize) -> Result<(), Stop> {
    let mut trace = Trace {
        offset: 0,
        records: 0,
        held: Held::new(),
    };
    show_file(rt, file, i, &mut trace)
}
