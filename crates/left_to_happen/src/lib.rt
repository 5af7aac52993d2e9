// What is left to happen once a record has done its part, from the bench as it was before the record; and what a write starts.
// Kept in this file: what is lent goes as slices beside set-up and device, and how they fit stands in clauses, since a struct of `&mut` slices needs a clause on its ghost name in each function.
#![tactic(auto)]

pub mod writes; // what a configuration write starts

ghost use Rattle.std.specs.Prelude.{◌≡◌, true, false, cond, List, ℕ, ◌≤◌, ◌<◌, get_or, set, take};
ghost use Rattle.readiness.specs.Status.{ready, started_by_link_up};
ghost use Rattle.readiness.specs.inner.Phases.{statuses_in};
ghost use Rattle.records.specs.declared.Record.TheVariants as variants;
ghost use Rattle.records.specs.State.{state};
ghost use Rattle.records.specs.Sound.{Sound, Fitting};
ghost use Rattle.happenings.specs.Happenings.{happenings};
ghost use Rattle.happenings.specs.Writes.{write_note, record_note};
ghost use Rattle.happenings.specs.inner.Started.{is_start, started_by};
ghost use Rattle.left_to_happen.specs.Left.{left_happens};

use bits::word_at;
use execute::kinds::kind_of_entry;
use execute::routing::{is_access, route_of};
use happenings::Note;
use messages::Message;
use readiness::{Dev, Setup, Slot, Status};
use records::{Record, Request};
use registers::flr_capability_word;
use settle::phases::in_numbers;
use times::Nanos;
use writes::{is_start, note_in, status_by};

// Nothing; slots that become Ready, and the DRS; or a message that arrives.
// Kept: three cases that a caller tells apart; an Option of the other two would say no more.
#[derive(Clone, Copy)]
pub enum Left {
    Nothing,
    Settling,
    Arriving(Option<Message>),
}

// What a write starts, what is left to happen, the device, and the slot statuses as numbers.
#[derive(Clone, Copy)]
pub struct LeftToHappen {
    pub note: Note,
    pub left: Left,
    pub dev: Dev,
    pub phases: [u64; 128],
}

fn nothing(note: Note, dev: Dev) -> LeftToHappen
    ensures note_value { result.note ≡ note }
    ensures left_value { result.left ≡ Left.Nothing }
{
    LeftToHappen {
        note: note,
        left: Left::Nothing,
        dev: dev,
        phases: [0u64; 128],
    }
}

fn settling(note: Note, dev: Dev, phases: [u64; 128]) -> LeftToHappen
    ensures { result ≡ record { note = note; left = Left.Settling; dev = dev; phases = phases } }
{
    LeftToHappen {
        note: note,
        left: Left::Settling,
        dev: dev,
        phases: phases,
    }
}

// Advance clock, unless the clock would pass its end.
fn by_advance(dev: Dev, statuses: [Status; 32], by: Nanos) -> LeftToHappen
    ensures note_value { result.note ≡ Note.Plain }
    ensures by_value { (setup : Setup) (defaults live cells : List ℕ) → happenings setup defaults (state dev (take setup.slots statuses) live cells) (variants.Advance by) ≡ left_happens setup cells result }
{
    let clock = times::sum(dev.clock, by);
    if times::nanos_number(clock) <= times::CLOCK_END {
        let mut after = dev;
        after.clock = clock;
        return settling(Note::Plain, after, in_numbers(statuses));
    }
    nothing(Note::Plain, dev)
}

// The statuses of a card after link up, as numbers.
fn started(setup: Setup, dev: Dev, statuses: [Status; 32]) -> [u64; 128]
    requires { setup.slots ≤ 32 }
    ensures { take setup.slots (statuses_in result) ≡ started_by_link_up setup dev (take setup.slots statuses) }
{
    let mut phases = in_numbers(statuses);
    let end = 4 * setup.slots;
    settle::start_all(setup, dev, &mut phases[0..end]);
    phases
}

// Link up, unless the link is up.
fn by_link_up(setup: Setup, dev: Dev, statuses: [Status; 32]) -> LeftToHappen
    ensures note_value { result.note ≡ Note.Plain }
    ensures link_up_value { setup.slots ≤ 32 → (defaults live cells : List ℕ) → happenings setup defaults (state dev (take setup.slots statuses) live cells) variants.LinkUp ≡ left_happens setup cells result }
{
    if dev.link {
        return nothing(Note::Plain, dev);
    }
    if setup.slots <= 32 {
        let phases = started(setup, dev, statuses);
        return settling(Note::Plain, settle::after_link_up(dev), phases);
    }
    nothing(Note::Plain, dev)
}

// A message, with the link up.
fn by_message(dev: Dev, message: Option<Message>) -> LeftToHappen
    ensures note_value { result.note ≡ Note.Plain }
    ensures dev_value { result.dev ≡ dev }
    ensures left_value { result.left ≡ cond dev.link (Left.Arriving message) Left.Nothing }
{
    if dev.link {
        return LeftToHappen {
            note: Note::Plain,
            left: Left::Arriving(message),
            dev: dev,
            phases: [0u64; 128],
        };
    }
    LeftToHappen {
        note: Note::Plain,
        left: Left::Nothing,
        dev: dev,
        phases: [0u64; 128],
    }
}

// The statuses with one anew, as numbers.
fn with_status(statuses: [Status; 32], slot: usize, status: Status) -> [u64; 128]
    requires { slot < 32 }
    ensures { statuses_in result ≡ set statuses slot status }
{
    let mut all = statuses;
    all[slot] = status;
    in_numbers(all)
}

// One of the statuses.
fn status_in(statuses: [Status; 32], slot: usize) -> Status
    requires { slot < 32 }
    ensures { result ≡ get_or statuses slot ready }
{
    statuses[slot]
}

// A write that is done: its slot starts anew, if the write starts something.
fn by_write_done(
    dev: Dev,
    statuses: [Status; 32],
    slot: usize,
    entry: Slot,
    note: Note,
) -> LeftToHappen
    requires { slot < 32 }
    ensures note_value { result.note ≡ note }
    ensures left_value { is_start note ≡ false → result.left ≡ Left.Nothing }
    ensures left_value_2 { is_start note ≡ true → (result.left ≡ Left.Settling) × (result.dev ≡ dev) × (statuses_in result.phases ≡ set statuses slot (started_by note dev.clock entry (get_or statuses slot ready))) }
{
    if is_start(note) {
        let clock = dev.clock;
        let status = status_in(statuses, slot);
        let after = status_by(note, clock, entry, status);
        return settling(note, dev, with_status(statuses, slot, after));
    }
    nothing(note, dev)
}

// A configuration write, by its route.
fn by_write(
    setup: Setup,
    dev: Dev,
    statuses: [Status; 32],
    live: &[u32],
    defaults: &[u32],
    q: Request,
    value: u32,
) -> LeftToHappen
    ensures note_value { setup.slots ≤ 32 → (cells : List ℕ) → result.note ≡ write_note setup defaults.now (state dev (take setup.slots statuses) live.now cells) q value }
    ensures by_index { (cells : List ℕ) → (let s = state dev (take setup.slots statuses) live.now cells in
        Sound setup s → Fitting setup defaults.now s → happenings setup defaults.now s (variants.Write q value) ≡ left_happens setup cells result) }
{
    let slot = q.slot;
    let word = q.word;
    if setup.slots <= slot {
        return nothing(Note::Plain, dev);
    }
    if 32 <= slot {
        return nothing(Note::Plain, dev);
    }
    let entry = setup.entries[slot];
    let status = status_in(statuses, slot);
    let kind = kind_of_entry(entry);
    let route = route_of(setup.slots, kind, dev, status, false, q);
    if is_access(route) {
        let old = word_at(live, slot * 64 + word);
        let capabilities = word_at(defaults, slot * 64 + flr_capability_word(kind));
        let note = note_in(kind, word, old, value, q.enables, capabilities);
        return by_write_done(dev, statuses, slot, entry, note);
    }
    nothing(Note::Plain, dev)
}

// What is left to happen after a record's own part, of a bench that is sound.
pub fn left_by(
    setup: Setup,
    dev: Dev,
    statuses: [Status; 32],
    live: &[u32],
    defaults: &[u32],
    record: Record,
) -> LeftToHappen
    ensures note_value { setup.slots ≤ 32 → (cells : List ℕ) → result.note ≡ record_note setup defaults.now (state dev (take setup.slots statuses) live.now cells) «record» }
    ensures by_index { (cells : List ℕ) → (let s = state dev (take setup.slots statuses) live.now cells in
        Sound setup s → Fitting setup defaults.now s → happenings setup defaults.now s «record» ≡ left_happens setup cells result) }
{
    match record {
        Record::Advance(by) => by_advance(dev, statuses, by),
        Record::Write(q, value) => by_write(setup, dev, statuses, live, defaults, q, value),
        Record::Message(message) => by_message(dev, message),
        Record::LinkUp => by_link_up(setup, dev, statuses),
        Record::LinkDown => nothing(Note::Plain, dev),
        Record::ColdReset => nothing(Note::Plain, dev),
        Record::Read(_) => nothing(Note::Plain, dev),
        Record::HardwareSet(_, _, _) => nothing(Note::Plain, dev),
        Record::ReadQueue => nothing(Note::Plain, dev),
        Record::RemoveOldest => nothing(Note::Plain, dev),
        Record::ClearBits(_) => nothing(Note::Plain, dev),
        Record::Control(_) => nothing(Note::Plain, dev),
        Record::ReadBits => nothing(Note::Plain, dev),
        Record::NoKind => nothing(Note::Plain, dev),
    }
}
