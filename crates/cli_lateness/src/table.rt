// The table of a capture, slot by slot, and totals.
ghost use Rattle.std.specs.Prelude.{◌≡◌};
ghost use Rattle.score.specs.Scores.{capture_total};
ghost use Rattle.cli_lateness.specs.Tables.{is_refused};

use cli_io::output::Output;
use describe_lateness::rows::put_row;
use describe_lateness::totals::{put_counts, put_range, put_refusal};
use lateness::{Report, bench_time, totals};
use readiness::Moments;
use score::{Collected, choose, total, total_of_capture};
use text_line::{LINE, Page};

// ---- Totals

// Whether there are no totals.
#[tactic(auto, unfolding(crate::specs::Tables::is_refused))]
fn is_refused(r: Report) -> bool
    ensures { result ≡ is_refused r }
{
    r.number != 0
}

// How many were early, on time and late; and, if there is a difference, the least, the greatest and the sum.
fn put_totals(page: &mut Page<'_>, r: Report) {
    if is_refused(r) {
        put_refusal(&mut *page, r.number);
        return;
    }
    put_counts(&mut *page, r);
    if r.early != 0 || r.on_time != 0 || r.late != 0 {
        page.put_text(b"; ");
        put_range(&mut *page, r.least, r.greatest, r.sum);
    }
}

// The line of all differences.
fn print_total(out: &mut Output<'_>, r: Report) {
    out.put(|page| {
        page.put_text(b"all differences: ");
        put_totals(page, r);
    });
    out.end_line();
}

// The line of a slot's differences.
fn print_slot_total(out: &mut Output<'_>, slot: usize, r: Report) {
    out.put(|page| {
        page.put_named(b"slot ", slot as u64);
        page.put_text(b": ");
        put_totals(page, r);
    });
    out.end_line();
}

// The totals of each slot that has a difference; `list` is overwritten.
fn print_by_slot(out: &mut Output<'_>, values: &[i64], of: &[usize], list: &mut [i64]) {
    for slot in 0..32 {
        let count = choose(values, of, slot, &mut *list).min(list.len());
        if count > 0 {
            print_slot_total(&mut *out, slot, totals(&list[..count]));
        }
    }
}

// The totals of what was collected, by slot and in all; where they are refused, that alone.
// Kept: the lists are lent and parallel, as the crate `score` collects and chooses from them.
pub fn print_totals(
    out: &mut Output<'_>,
    values: &[i64],
    of: &[usize],
    c: Collected,
    list: &mut [i64],
) {
    out.make_room(LINE);
    let r = total(values, c);
    if !is_refused(r) {
        let n = c.count.min(values.len());
        let m = c.count.min(of.len());
        print_by_slot(&mut *out, &values[..n], &of[..m], list);
    }
    print_total(out, r);
}

// ---- One capture

// A line for each slot of the card, and the totals over their differences: whether these are refused.
pub fn print_table(out: &mut Output<'_>, slots: usize, bench: Moments, seen: Moments) -> bool
    ensures { result ≡ is_refused (capture_total slots bench seen) }
{
    out.make_room(LINE);
    for slot in 0..slots.min(32) {
        let made = bench_time(slots, bench, slot);
        let first = bench_time(slots, seen, slot);
        out.put(|page| put_row(page, slot as u64, made, first));
        out.end_line();
    }
    let r = total_of_capture(slots, bench, seen);
    print_total(out, r);
    is_refused(r)
}

#[cfg(test)]
mod tests {
    use super::*;
    use cli_io::input::PIECE;
    use cli_io::sink::Sink;
    use readiness::no_moments;

    // Where little room is left, what waits is written first.
    #[test]
    fn totals_are_whole(rt: HostRuntime) {
        let mut out = Output::new(Sink::Nowhere);
        out.count = PIECE - 10;
        let refused = print_table(&mut out, 0, no_moments(), no_moments());
        assert!(rt; !refused);
        assert_eq!(rt;
            out.bytes[..out.count.min(PIECE)],
            b"all differences: early 0, on time 0, late 0\n"[..]
        );
        out.count = PIECE - 10;
        let nothing = Collected {
            count: 0,
            outside: false,
        };
        print_totals(&mut out, &[0i64; 1], &[0usize; 1], nothing, &mut [0i64; 1]);
        assert_eq!(rt;
            out.bytes[..out.count.min(PIECE)],
            b"all differences: early 0, on time 0, late 0\n"[..]
        );
    }
}
