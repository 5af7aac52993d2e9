// What a configuration write starts, or asks for in vain.
ghost use Rattle.std.specs.Prelude.{◌≡◌};
ghost use Rattle.registers.specs.Words.{write_word};
ghost use Rattle.bits.specs.Bits.{bit};
ghost use Rattle.happenings.specs.Writes.{enters_d3hot, wakes, note_of};
ghost use Rattle.happenings.specs.inner.Started.{is_start, started_by};

use happenings::Note;
use readiness::{Slot, Status};
use registers::{Kind, attributes, power_state, starts_d3hot, starts_flr, write_word};
use times::Nanos;

// Device capabilities with bit 28, FLR capable, alone.
const CAPABLE: u32 = 0x10000000;

// 44h.
const PMCSR: usize = 17;

// PowerState becomes 3.
fn enters_d3hot(i: usize, old: u32, new: u32) -> bool
    ensures { result ≡ enters_d3hot i old new }
{
    (i == PMCSR) & (power_state(old) != 3) & (power_state(new) == 3)
}

// PowerState goes from 3 to 0: by No_Soft_Reset in the new PMCSR.
fn woken(new: u32) -> Note
    ensures { result ≡ wakes (bit new 3) }
{
    if new & 8 != 0 {
        return Note::WakesKept;
    }
    Note::WakesReset
}

// Kept in this file: what a write is, word by word; a struct for it would be made for these calls alone.
// A write of word i, from old to new.
fn note_of(
    kind: Kind,
    i: usize,
    old: u32,
    new: u32,
    value: u32,
    enables: u8,
    capabilities: u32,
) -> Note
    ensures { result ≡ note_of kind i old new value enables capabilities }
{
    if starts_flr(kind, i, value, enables, capabilities) {
        return Note::FlrStarted;
    }
    if starts_d3hot(kind, i, old, new) {
        return woken(new);
    }
    if starts_flr(kind, i, value, enables, CAPABLE) {
        return Note::NoFlr;
    }
    if enters_d3hot(i, old, new) {
        return Note::EntersD3hot;
    }
    Note::Plain
}

// A write of word i, which was old.
pub fn note_in(kind: Kind, i: usize, old: u32, value: u32, enables: u8, capabilities: u32) -> Note
    ensures { result ≡ note_of kind i old (write_word kind i old value enables) value enables capabilities }
{
    let table = attributes();
    let new = write_word(&table, kind, i, old, value, enables);
    note_of(kind, i, old, new, value, enables, capabilities)
}

// Whether the slot starts anew.
pub fn is_start(note: Note) -> bool
    ensures { result ≡ is_start note }
{
    match note {
        Note::FlrStarted => true,
        Note::WakesReset => true,
        Note::WakesKept => true,
        Note::NoFlr => false,
        Note::EntersD3hot => false,
        Note::Plain => false,
    }
}

// The status of the slot then.
pub fn status_by(note: Note, clock: Nanos, entry: Slot, status: Status) -> Status
    ensures { result ≡ started_by note clock entry status }
{
    match note {
        Note::FlrStarted => settle::flr_status(clock, entry),
        Note::WakesReset => settle::d3hot_status(clock, entry),
        Note::WakesKept => settle::d3hot_status(clock, entry),
        Note::NoFlr => status,
        Note::EntersD3hot => status,
        Note::Plain => status,
    }
}
