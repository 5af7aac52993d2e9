// A sheet, line by line, on a set-up.
ghost use Rattle.std.specs.Prelude.{◌≡◌, ◌<◌};
ghost use Rattle.sheet_grammar.specs.Layout.{no_line};
ghost use Rattle.sheet_grammar.specs.Reading.{is_slot, is_named, is_too_long, has_too_long, refusal_of, code_for, with_times, with_line, lines_of, sheet_of, line_naming, place_after};

use crate::layout::{line_of, no_line};
use readiness::{Setup, Slot};
use sheet_grammar::{LineRead, SheetLine, SheetRead};
use times::{ClaimedTime, Code, GREATEST_TIME, claimed_nanos, code_for, nanos_number};

// ---- Refusals

// Whether the card has the slot.
#[tactic(auto, unfolding(sheet_grammar::specs::Reading::is_slot))]
fn is_slot(slots: usize, l: SheetLine) -> bool
    ensures { result ≡ is_slot slots l }
{
    l.slot < slots as u64 && l.slot < 32
}

// Whether the slot was named before.
fn is_named(named: [bool; 32], l: SheetLine) -> bool
    ensures { result ≡ is_named named l }
{
    if l.slot < 32 {
        named[l.slot as usize]
    } else {
        false
    }
}

// Whether a time is above that of the greatest code.
fn is_too_long(c: ClaimedTime) -> bool
    ensures { result ≡ is_too_long c }
{
    GREATEST_TIME < nanos_number(claimed_nanos(c))
}

#[tactic(auto, unfolding(sheet_grammar::specs::Reading::has_too_long))]
fn has_too_long(l: SheetLine) -> bool
    ensures { result ≡ has_too_long l }
{
    is_too_long(l.reset) || is_too_long(l.dl_up) || is_too_long(l.flr) || is_too_long(l.d3hot)
}

// 0, or the first of 40 to 43 that the line gives.
// Kept: 40 to 43 are the papers' numbers, which README's entry `sheet::read` answers.
fn refusal_of(slots: usize, named: [bool; 32], l: LineRead) -> u8
    ensures { result ≡ refusal_of slots named l }
{
    if !l.fits {
        return 40;
    }
    let line = l.line;
    if !is_slot(slots, line) {
        return 41;
    }
    if is_named(named, line) {
        return 42;
    }
    if has_too_long(line) { 43 } else { 0 }
}

// ---- Codes

// The code of a claim; the old one where there is none.
fn code_or(old: Code, c: ClaimedTime) -> Code
    ensures { result ≡ code_for old c }
{
    match code_for(c) {
        Some(code) => code,
        None => old,
    }
}

// The entry of a slot with the codes of the line's times.
fn with_times(l: SheetLine, s: Slot) -> Slot
    ensures { result ≡ with_times l s }
{
    let mut t = s;
    let reset = code_or(s.reset, l.reset);
    t.reset = reset;
    let dl_up = code_or(s.dl_up, l.dl_up);
    t.dl_up = dl_up;
    let flr = code_or(s.flr, l.flr);
    t.flr = flr;
    let d3hot = code_or(s.d3hot, l.d3hot);
    t.d3hot = d3hot;
    t
}

// The set-up with the codes of the slot that the line names.
fn with_line(l: SheetLine, setup: Setup) -> Setup
    requires { l.slot < 32 }
    ensures { result ≡ with_line l setup }
{
    let mut entries = setup.entries;
    let slot = l.slot as usize;
    let entry = with_times(l, entries[slot]);
    entries[slot] = entry;
    let mut changed = setup;
    changed.entries = entries;
    changed
}

// ---- Sheets

// What a sheet gives on a set-up: 0 and the set-up with the codes of the slots that it names, or the number and the line of a
// refusal and the set-up as it was.
pub fn read(text: &[u8], setup: Setup) -> SheetRead
    ensures { result ≡ sheet_of text.now setup }
{
    let mut changed = setup;
    let mut named = [false; 32];
    let mut at: usize = 0;
    let mut count: usize = 0;
    let len = text.len();
    // Kept: each turn reads on from where the last line ended, so no range or slice gives the places.
    while at < len {
        let l = line_of(&text[at..len]);
        count += 1;
        let number = refusal_of(setup.slots, named, l);
        if number != 0 {
            return SheetRead {
                number: number,
                line: count,
                setup: setup,
            };
        }
        let line = l.line;
        changed = with_line(line, changed);
        named[line.slot as usize] = true;
        at += l.size;
    }
    SheetRead {
        number: 0,
        line: 0,
        setup: changed,
    }
}

// The line of a sheet that names a slot.
pub fn line_naming(text: &[u8], slot: u64) -> LineRead
    ensures { result ≡ line_naming slot (lines_of text.now) }
{
    let mut at: usize = 0;
    let len = text.len();
    // Kept: each turn reads on from where the last line ended, so no range or slice gives the places.
    while at < len {
        let l = line_of(&text[at..len]);
        if !l.fits {
            return no_line();
        }
        if l.line.slot == slot {
            return l;
        }
        at += l.size;
    }
    no_line()
}

// The place of the byte after so many lines.
pub fn place_after(text: &[u8], lines: usize) -> usize
    ensures { result ≡ place_after lines (lines_of text.now) }
{
    let mut at: usize = 0;
    let mut left = lines;
    let len = text.len();
    // Kept: each turn reads on from where the last line ended, so no range or slice gives the places.
    while (at < len) & (left > 0) {
        let l = line_of(&text[at..len]);
        if !l.fits {
            return at;
        }
        at += l.size;
        left -= 1;
    }
    at
}
