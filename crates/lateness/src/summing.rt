// The totals of a list of differences.
ghost use Rattle.std.specs.Prelude.{◌≡◌, true, [], ◌≤◌, length};
ghost use Rattle.bits.specs.Bits.{one};
ghost use Rattle.lateness.specs.Lateness.{within};
ghost use Rattle.lateness.specs.Totals.{is_early, is_on_time, is_late, lower_of, higher_of, all_within, longest_list, totals_of, refused, report};
ghost use Rattle.lateness.specs.inner.Steps.{pick_with, with_one, Room};

use crate::Report;

// The most differences that a list may have.
const LONGEST_LIST: usize = 9000;

// The least and the greatest with no difference.
const PICKED_OF_NONE: i64 = 0;

// Whether a difference is at most 10^15 either way.
fn is_within(d: i64) -> bool
    ensures { result ≡ within d }
{
    if d < -1000000000000000 {
        return false;
    }
    d <= 1000000000000000
}

// Whether every difference is within.
fn all_within(list: &[i64]) -> bool
    ensures { result ≡ all_within list.now }
{
    list.iter().rev().all(|d| is_within(*d))
}

// ---- What one difference adds
// Kept: each function is one line; one for the three tests and one for the two picks would take the test or the pick as a closure, and be no shorter.

fn early_one(d: i64) -> u32
    ensures { result ≡ one (is_early d) }
{
    if d < 0 { 1 } else { 0 }
}

fn on_time_one(d: i64) -> u32
    ensures { result ≡ one (is_on_time d) }
{
    if d == 0 { 1 } else { 0 }
}

fn late_one(d: i64) -> u32
    ensures { result ≡ one (is_late d) }
{
    if 0 < d { 1 } else { 0 }
}

// The least of a difference and `rest` others, the least of which is e.
fn least_with(d: i64, rest: usize, e: i64) -> i64
    ensures { result ≡ pick_with lower_of d rest e }
{
    if rest == 0 { d } else { d.min(e) }
}

fn greatest_with(d: i64, rest: usize, e: i64) -> i64
    ensures { result ≡ pick_with higher_of d rest e }
{
    if rest == 0 { d } else { d.max(e) }
}

// The totals of `rest` differences, with one more.
fn with_one(d: i64, rest: usize, t: Report) -> Report
    requires { Room d t }
    ensures { result ≡ with_one d rest t }
{
    let early = early_one(d) + t.early;
    let on_time = on_time_one(d) + t.on_time;
    let late = late_one(d) + t.late;
    let least = least_with(d, rest, t.least);
    let greatest = greatest_with(d, rest, t.greatest);
    let sum = d + t.sum;
    Report {
        number: 0,
        early,
        on_time,
        late,
        least,
        greatest,
        sum,
    }
}

// ---- Lists

// A number with all totals 0.
pub fn refusal(number: u8) -> Report
    ensures { result ≡ refused number }
{
    Report {
        number,
        early: 0,
        on_time: 0,
        late: 0,
        least: 0,
        greatest: 0,
        sum: 0,
    }
}

// The totals of no difference.
fn no_totals() -> Report
    ensures { result ≡ totals_of [] }
{
    Report {
        number: 0,
        early: 0,
        on_time: 0,
        late: 0,
        least: PICKED_OF_NONE,
        greatest: PICKED_OF_NONE,
        sum: 0,
    }
}

// The totals of a list that isn't refused.
fn summed(list: &[i64]) -> Report
    requires { (all_within list.now ≡ true) × (length list.now ≤ longest_list) }
    ensures { result ≡ totals_of list.now }
{
    let mut t = no_totals();
    for i in (0..list.len()).rev() {
        let d = list[i];
        t = with_one(d, list.len() - 1 - i, t);
    }
    t
}

// The report of a list: 34 if a difference is outside, else 35 if there are more than 9,000, else its totals.
pub fn totals(list: &[i64]) -> Report
    ensures { result ≡ report list.now }
{
    if !all_within(list) {
        return refusal(34);
    }
    if LONGEST_LIST < list.len() {
        return refusal(35);
    }
    summed(list)
}
