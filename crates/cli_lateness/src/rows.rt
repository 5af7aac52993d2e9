// The lines and rows of several captures, each named by its argument.
ghost use Rattle.std.specs.Prelude.{◌≡◌};

use cli_io::input::PIECE;
use cli_io::output::Output;
use describe_lateness::{csv, rows};
use lateness::bench_time;
use readiness::Moments;
use text_line::LINE;
use times::Nanos;

// Room for a line after a name of 4096 bytes.
const ROOM: usize = 8192;

// Lines for standard output, and rows for a file, or for nowhere.
#[derive(Clone, Copy)]
pub struct Outputs<'a> {
    pub printed: Output<'a>,
    pub rows: Output<'a>,
}

// Makes room for a line after a name: gives the name, or nothing of one that no room is made for, which is written at once.
fn begin_line<'a>(out: &mut Output<'_>, name: &'a [u8]) -> &'a [u8]
    ensures { out.new.writer.to ≡ out.old.writer.to }
{
    let wanted = name.len().saturating_add(LINE);
    out.make_room(ROOM.max(wanted));
    if wanted <= PIECE {
        return name;
    }
    let _ = out.writer.write(name);
    &name[..0]
}

impl Outputs<'_> {
    // The names of the columns.
    pub fn begin_rows(&mut self)
        ensures { self.new.rows.writer.to ≡ self.old.rows.writer.to }
    {
        self.rows.make_room(LINE);
        self.rows.put(|page| {
            csv::put_header(page);
            page.put_byte(b'\n');
        });
    }

    // The line of a slot.
    // Kept: five parameters, each of its own kind; a struct of them would be made for this call alone.
    fn print_slot(&mut self, name: &[u8], slot: u64, bench: Option<Nanos>, seen: Option<Nanos>)
        ensures { self.new.rows.writer.to ≡ self.old.rows.writer.to }
    {
        let short = begin_line(&mut self.printed, name);
        self.printed.put(|page| {
            page.put_text(short);
            page.put_text(b": ");
            rows::put_row(page, slot, bench, seen);
        });
        self.printed.end_line();
    }

    // The row of a slot.
    // Kept: the same five parameters.
    fn put_row(&mut self, name: &[u8], slot: u64, bench: Option<Nanos>, seen: Option<Nanos>)
        ensures { self.new.rows.writer.to ≡ self.old.rows.writer.to }
    {
        let short = begin_line(&mut self.rows, name);
        self.rows.put(|page| {
            csv::put_row(page, short, slot, bench, seen);
            page.put_byte(b'\n');
        });
        self.rows.make_room(ROOM);
    }

    // Kept: five parameters, each of its own kind; a struct of them would be made for this call alone.
    // The lines and rows of a capture: of each slot that has a bench time or a seen time.
    pub fn put_capture(&mut self, name: &[u8], slots: usize, bench: Moments, seen: Moments)
        ensures { self.new.rows.writer.to ≡ self.old.rows.writer.to }
    {
        for slot in 0..32 {
            let made = bench_time(slots, bench, slot);
            let saw = bench_time(slots, seen, slot);
            if made.is_some() || saw.is_some() {
                self.print_slot(name, slot as u64, made, saw);
                self.put_row(name, slot as u64, made, saw);
            }
        }
    }
}

#[cfg(test)]
mod tests {
    use super::*;
    use cli_io::sink::Sink;
    use readiness::no_moments;

    fn outputs<'a>() -> Outputs<'a> {
        Outputs {
            printed: Output::new(Sink::Nowhere),
            rows: Output::new(Sink::Nowhere),
        }
    }

    // The lines and rows of four slots, each seen at 5 ns and not made Ready.
    fn put_four(name: &[u8]) -> Outputs<'_> {
        let mut seen = no_moments();
        for slot in 0..4 {
            seen.note(slot, times::nanos_of(5));
        }
        let mut out = outputs();
        out.put_capture(name, 4, no_moments(), seen);
        out
    }

    // Two lines after such a name fit, of 104 bytes each behind it, and two rows of 8; four would not: those before are written.
    #[test]
    fn long_name_cuts_no_line(rt: HostRuntime) {
        let out = put_four(&[b'n'; 25000]);
        assert_eq!(rt; out.printed.count, 2 * (25000 + 104));
        assert_eq!(rt; out.rows.count, 2 * (25000 + 8));
    }

    // A name that no output has room for is written at once, and what stands after it waits.
    #[test]
    fn longest_name_cuts_no_line(rt: HostRuntime) {
        let out = put_four(&[b'n'; 70000]);
        let lines = out.printed;
        assert_eq!(rt;
            lines.bytes[..lines.count.min(PIECE)],
            b": slot  3  bench not made Ready  seen             5 ns  no difference: the replay did not make it Ready\n"[..]
        );
        let rows = out.rows;
        assert_eq!(rt; rows.bytes[..rows.count.min(PIECE)], b",3,,5,,\n"[..]);
    }

    // Where little room is left, what waits is written first.
    #[test]
    fn columns_are_named_whole(rt: HostRuntime) {
        let mut out = outputs();
        out.rows.count = PIECE - 10;
        out.begin_rows();
        let rows = out.rows;
        assert_eq!(rt;
            rows.bytes[..rows.count.min(PIECE)],
            b"capture,slot,bench_ns,seen_ns,difference_ns,verdict\n"[..]
        );
    }
}
