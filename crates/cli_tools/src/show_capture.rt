// `otsnebura show --capture FILE`: the entries in words, up to the first that ends the capture early, or the end.
use crate::shown::{Shown, show_file};
use capture_lines::CaptureFault;
use cli_capture::complaint::complain_capture;
use cli_capture::entries::Entry;
use cli_io::input::Input;
use cli_io::output::Output;
use cli_io::stop::Stop;
use describe_capture::capture_words::{put_capture_totals, put_entry};
use describe_capture::fault_words::put_fault_line;
use describe_capture::finding::{end_fault, fault_byte, kind_fault};
use replay_state::stamps::stamp_in;
use std::fs::File;
use std::ops::ControlFlow;
use text_line::Page;
use ticks::{Stamp, difference, in_nanos};
use times::nanos_number;

// How far the reading is: bytes and entries shown, the sum of their differences in ns, and the stamp of the last entry; where it stopped, if
// early; and the entry in hand.
#[derive(Clone, Copy)]
struct Capture {
    offset: u64,
    entries: u64,
    nanos: u64,
    earlier: Option<Stamp>,
    stopped_at: u64,
    entry: Entry,
}

impl Capture {
    fn stamp(&self) -> Stamp {
        stamp_in(self.entry.stamp)
    }

    // The time since the entry before; none before the first.
    fn nanos_since(&self) -> u64 {
        match self.earlier {
            Some(earlier) => nanos_number(in_nanos(difference(earlier, self.stamp()))),
            None => 0,
        }
    }

    // An entry with its whole record.
    fn show_entry(&mut self, out: &mut Output<'_>) {
        let stamp = self.stamp();
        let record = decode::decoding::decode(self.entry.held.bytes);
        let at = self.offset.wrapping_add(4);
        out.put(|page| put_entry(page, at, self.earlier, stamp, record));
        out.end_line();
        self.nanos = self.nanos.wrapping_add(self.nanos_since());
        self.offset = self.next_byte();
        self.entries = self.entries.wrapping_add(1);
        self.earlier = Some(stamp);
        self.entry = Entry::new();
    }

    // What ends it early at the kind byte of the entry in hand, if that is there.
    fn fault_at_kind(&self) -> Option<CaptureFault> {
        let held = self.entry.held;
        if held.count == 0 {
            return None;
        }
        kind_fault(self.earlier, self.stamp(), held.bytes[0], held.size)
    }

    // At the end of the file.
    fn fault_at_end(&self) -> Option<CaptureFault> {
        let held = self.entry.held;
        end_fault(
            self.stamp(),
            self.entry.stamp_len,
            held.bytes[0],
            held.count,
            held.size,
        )
    }

    // Its line, where the next byte is at `next`.
    fn show_fault(&mut self, fault: Option<CaptureFault>, next: u64, out: &mut Output<'_>) {
        out.put(|page| put_fault_line(page, fault_byte(next, fault), fault));
        out.end_line();
        self.stopped_at = next;
    }
}

impl Shown for Capture {
    // An entry has its line once its record is whole; what ends the capture at its kind byte ends the showing.
    fn show_next(&mut self, input: &mut Input<'_>, out: &mut Output<'_>) -> ControlFlow<()> {
        let n = self.entry.take(input.unread());
        input.pass(n);
        let fault = self.fault_at_kind();
        if fault.is_some() {
            self.show_fault(fault, self.offset.wrapping_add(4), &mut *out);
            return ControlFlow::Break(());
        }
        if self.entry.held.is_full() {
            self.show_entry(&mut *out);
        }
        ControlFlow::Continue(())
    }

    fn show_rest(&mut self, out: &mut Output<'_>) {
        let fault = self.fault_at_end();
        if fault.is_some() {
            self.show_fault(fault, self.next_byte(), &mut *out);
        }
    }

    fn put_totals(&self, page: &mut Page<'_>) {
        put_capture_totals(&mut *page, self.entries, self.offset, self.nanos);
    }

    fn next_byte(&self) -> u64 {
        let taken = self.entry.stamp_len as u64;
        let held = self.entry.held.count as u64;
        self.offset.wrapping_add(taken.wrapping_add(held))
    }

    fn verdict(&self, rt: &HostRuntime, i: usize) -> Result<(), Stop> {
        let fault = self.fault_at_kind().or(self.fault_at_end());
        complain_capture(rt, i, self.stopped_at, fault);
        if fault.is_some() {
            Err(Stop::Refused)
        } else {
            Ok(())
        }
    }
}

// Shows a capture; argument i names it.
pub fn show_capture(rt: &HostRuntime, file: &File, i: usize) -> Result<(), Stop> {
    let mut capture = Capture {
        offset: 0,
        entries: 0,
        nanos: 0,
        earlier: None,
        stopped_at: 0,
        entry: Entry::new(),
    };
    show_file(rt, file, i, &mut capture)
}
