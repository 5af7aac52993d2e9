// How a record takes its turn: by the part of the state that it touches, with the commonest records apart.
ghost use Rattle.std.specs.Prelude.{Bool, List, set, ℕ, ◌<◌};
ghost use Rattle.readiness.specs.declared.Status.{Status};
ghost use Rattle.readiness.specs.inner.Earliest.{ReadyFrom};
ghost use Rattle.times.specs.declared.Nanos.{Nanos};
ghost use Rattle.records.specs.declared.Record.TheVariants as variants;
ghost use Rattle.feed.specs.inner.Turns.{Takes};

use crate::Turn;
use frs_queue::Frs;
use messages::Message;
use readiness::{Dev, Phase, Status};
use records::{Record, Request};
use times::Nanos;

// A read of a slot that there is not touches nothing.
fn of_read(slots: usize, q: Request) -> Turn
    ensures { (earliest clock : Nanos) (link : Bool) → Takes slots earliest clock link (variants.Read q) result }
{
    if q.slot < slots {
        Turn::Read(q)
    } else {
        Turn::Port
    }
}

// So does a write.
fn of_write(slots: usize, q: Request, value: u32) -> Turn
    ensures { (earliest clock : Nanos) (link : Bool) → Takes slots earliest clock link (variants.Write q value) result }
{
    if q.slot < slots {
        Turn::Write(q, value)
    } else {
        Turn::Port
    }
}

// So does a hardware set.
fn of_hardware(slots: usize, slot: usize, word: usize, mask: u32) -> Turn
    ensures { (earliest clock : Nanos) (link : Bool) → Takes slots earliest clock link (variants.HardwareSet slot word mask) result }
{
    if slot < slots {
        Turn::Hardware(slot, word, mask)
    } else {
        Turn::Port
    }
}

// No slot becomes Ready before `earliest`.
fn of_advance(earliest: Nanos, clock: Nanos, by: Nanos) -> Turn
    ensures { (slots : ℕ) (link : Bool) → Takes slots earliest clock link (variants.Advance by) result }
{
    if times::sum(clock, by) < earliest {
        Turn::Clock(by)
    } else {
        Turn::Card
    }
}

// An FRS that comes with the link up goes to the queue alone.
fn of_message(link: bool, message: Option<Message>) -> Turn
    ensures { (slots : ℕ) (earliest clock : Nanos) → Takes slots earliest clock link (variants.Message message) result }
{
    match message {
        Some(Message::Frs(id, reason)) if link => Turn::Frs(Frs { id, reason }),
        _ => Turn::Port,
    }
}

pub fn turn_of(slots: usize, earliest: Nanos, dev: Dev, record: Record) -> Turn
    ensures { Takes slots earliest dev.clock dev.link «record» result }
{
    match record {
        Record::Advance(by) => of_advance(earliest, dev.clock, by),
        Record::Read(q) => of_read(slots, q),
        Record::Write(q, value) => of_write(slots, q, value),
        Record::HardwareSet(slot, word, mask) => of_hardware(slots, slot, word, mask),
        Record::Message(message) => of_message(dev.link, message),
        Record::LinkUp | Record::LinkDown | Record::ColdReset => Turn::Card,
        _ => Turn::Port,
    }
}

// The moment before which no slot becomes Ready, once one slot has this status.
pub fn lowered(earliest: Nanos, status: Status) -> Nanos
    ensures { (l : List Status) (i : ℕ) → ReadyFrom earliest l → ReadyFrom result (set l i status) }
{
    match status.phase {
        Phase::Down | Phase::Ready => earliest,
        Phase::Pending(_, ready) => ready.min(earliest),
    }
}
