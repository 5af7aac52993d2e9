// A record's turn: it runs on the part of the state that it touches. In a sound state what a turn leaves, and the answer, are those of the
// record's run.
// Kept in this file: what is lent goes as slices beside set-up and device, and how they fit stands in clauses, since a struct of `&mut` slices needs a clause on its ghost name in each function.
ghost use Rattle.std.specs.Prelude.{◌≡◌, true, List, ℕ, ◌+◌, ◌*◌, ◌≤◌, ◌<◌, length, Some};
ghost use Rattle.times.specs.declared.Nanos.{Nanos};
ghost use Rattle.times.specs.Moments.{sum_of};
ghost use Rattle.messages.specs.declared.Message.TheVariants as message;
ghost use Rattle.readiness.specs.declared.Status.{Status};
ghost use Rattle.readiness.specs.declared.Setup.{Setup};
ghost use Rattle.readiness.specs.declared.Dev.{Dev};
ghost use Rattle.readiness.specs.inner.Phases.{statuses_in, moments_in};
ghost use Rattle.readiness.specs.inner.Earliest.{ReadyFrom};
ghost use Rattle.records.specs.declared.Record.TheVariants as variants;
ghost use Rattle.records.specs.declared.Part.TheVariants.{PortAlone, WholeCard};
ghost use Rattle.records.specs.State.{state};
ghost use Rattle.records.specs.inner.Parts.{part_of};
ghost use Rattle.execute.specs.inner.Lent.{state_in, OfCard};
ghost use Rattle.feed.specs.inner.Turns.{TakesTurn, NotesTurn};

use crate::choosing::lowered;
use execute::card::{advance_alone, run_card};
use execute::kinds::kind_of_entry;
use execute::port::{receive_frs, run_port};
use execute::requests::{run_hardware, run_read, run_write};
use frs_queue::Frs;
use readiness::{Dev, Setup};
use records::{PortDone, QueueDone, Record, Reply, Request};
use registers::Masks;
use settle::phases::{note, put_status, status_at};
use times::Nanos;

// What a turn leaves that can start a slot: the device, a moment before which no slot becomes Ready, and the answer.
#[derive(Clone, Copy)]
pub struct Moved {
    pub dev: Dev,
    pub earliest: Nanos,
    pub reply: Reply,
}

// A configuration read of a slot of the card.
pub fn read_turn(setup: &Setup, dev: Dev, phases: &[u64], live: &[u32], q: Request) -> Reply
    requires { (q.slot < 32) × (q.slot < length (statuses_in phases.now)) × (64 * setup.now.slots ≤ length live.now) }
    ensures { (defaults cells : List ℕ) → q.slot < setup.now.slots
        → TakesTurn setup.now defaults (state_in dev phases.now live.now cells) (variants.Read q) (state_in dev phases.now live.now cells) result }
{
    let kind = kind_of_entry(setup.entries[q.slot]);
    run_read(setup.slots, kind, dev, status_at(phases, q.slot), live, q)
}

// A configuration write of a slot of the card.
pub fn write_turn(
    table: &Masks,
    setup: &Setup,
    dev: Dev,
    earliest: Nanos,
    phases: &mut [u64],
    live: &mut [u32],
    defaults: &[u32],
    cells: &mut [u32],
    q: Request,
    value: u32,
) -> Moved
    requires { (q.slot < 32) × (q.slot < length (statuses_in phases.old)) × (64 * setup.now.slots ≤ length live.old) × (64 * setup.now.slots ≤ length defaults.now) }
    ensures takes_turn { q.slot < setup.now.slots
        → TakesTurn setup.now defaults.now (state_in dev phases.old live.old cells.old) (variants.Write q value)
        (state_in result.dev phases.new live.new cells.new) result.reply }
    ensures ready_from { ReadyFrom earliest (statuses_in phases.old) → ReadyFrom result.earliest (statuses_in phases.new) }
    ensures notes_turn { q.slot < setup.now.slots
        → NotesTurn setup.now defaults.now (state_in dev phases.old live.old cells.old) (variants.Write q value) (moments_in phases.old) (moments_in phases.new) }
{
    let slot = q.slot;
    let entry = setup.entries[slot];
    let kind = kind_of_entry(entry);
    let status = status_at(phases, slot);
    let x = run_write(
        table,
        setup.slots,
        kind,
        setup.bus,
        entry,
        slot,
        dev,
        status,
        live,
        defaults,
        cells,
        q,
        value,
    );
    note(phases, slot, x.made);
    put_status(phases, slot, x.status);
    Moved {
        dev: x.dev,
        earliest: lowered(earliest, x.status),
        reply: x.reply,
    }
}

// Hardware sets bits of a word of a slot of the card.
pub fn hardware_turn(
    table: &Masks,
    setup: &Setup,
    phases: &[u64],
    live: &mut [u32],
    slot: usize,
    word: usize,
    mask: u32,
) -> Reply
    requires { (slot < 32) × (slot < length (statuses_in phases.now)) × (64 * setup.now.slots ≤ length live.old) }
    ensures { (defaults : List ℕ) (dev : Dev) (cells : List ℕ) → slot < setup.now.slots
        → TakesTurn setup.now defaults (state_in dev phases.now live.old cells) (variants.HardwareSet slot word mask) (state_in dev phases.now live.new cells) result }
{
    let kind = kind_of_entry(setup.entries[slot]);
    run_hardware(
        table,
        setup.slots,
        kind,
        status_at(phases, slot),
        live,
        slot,
        word,
        mask,
    )
}

// A record that touches the root port alone.
pub fn port_turn(port_id: u16, dev: Dev, record: Record, cells: &mut [u32]) -> PortDone
    ensures { (setup : Setup) (defaults : List ℕ) (statuses : List Status) (live : List ℕ) → setup.port_id ≡ port_id → part_of setup «record» ≡ PortAlone
        → TakesTurn setup defaults (state dev statuses live cells.old) «record» (state result.dev statuses live cells.new) result.reply }
{
    run_port(port_id, dev, cells, record)
}

// An FRS that comes with the link up.
pub fn frs_turn(dev: Dev, cells: &mut [u32], frs: Frs) -> PortDone
    ensures { (setup : Setup) (defaults : List ℕ) (statuses : List Status) (live : List ℕ) → dev.link ≡ true
        → TakesTurn setup defaults (state dev statuses live cells.old) (variants.Message (Some (message.Frs frs.id frs.reason)))
        (state result.dev statuses live cells.new) result.reply }
{
    let QueueDone { queue, reply } = receive_frs(dev, cells, frs);
    PortDone {
        dev: Dev { queue, ..dev },
        reply,
    }
}

// An advance to a moment before any slot becomes Ready.
pub fn clock_turn(dev: Dev, by: Nanos) -> PortDone
    ensures { (setup : Setup) (defaults : List ℕ) (statuses : List Status) (live cells : List ℕ) (earliest : Nanos) → ReadyFrom earliest statuses → (sum_of dev.clock by).0 < earliest.0
        → TakesTurn setup defaults (state dev statuses live cells) (variants.Advance by) (state result.dev statuses live cells) result.reply }
{
    advance_alone(dev, by)
}

// A record that touches every slot.
pub fn card_turn(
    table: &Masks,
    setup: &Setup,
    dev: Dev,
    phases: &mut [u64],
    record: Record,
    live: &mut [u32],
    defaults: &[u32],
    cells: &mut [u32],
) -> Moved
    requires { OfCard setup.now phases.old live.old }
    ensures takes_turn { part_of setup.now «record» ≡ WholeCard
        → TakesTurn setup.now defaults.now (state_in dev phases.old live.old cells.old) «record» (state_in result.dev phases.new live.new cells.new) result.reply }
    ensures ready_from { ReadyFrom result.earliest (statuses_in phases.new) }
    ensures notes_turn { part_of setup.now «record» ≡ WholeCard
        → NotesTurn setup.now defaults.now (state_in dev phases.old live.old cells.old) «record» (moments_in phases.old) (moments_in phases.new) }
{
    let PortDone { dev, reply } = run_card(
        table, *setup, dev, phases, live, defaults, cells, record,
    );
    Moved {
        dev,
        earliest: settle::earliest_ready(setup.slots, phases),
        reply,
    }
}
