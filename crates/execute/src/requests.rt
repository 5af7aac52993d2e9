// Records that touch one slot: configuration read, configuration write, hardware set.
// Kept in this file: what is lent goes as slices beside set-up and device, and how they fit stands in clauses, since a struct of `&mut` slices needs a clause on its ghost name in each function.
ghost use Rattle.std.specs.Prelude.{◌≡◌, cond, List, ℕ, ◌+◌, ◌*◌, ◌≤◌, ◌<◌, length};
ghost use Rattle.bits.specs.Bits.{bit};
ghost use Rattle.config_space.specs.Functions.{link_reset_slot};
ghost use Rattle.readiness.specs.declared.Dev.{Dev};
ghost use Rattle.readiness.specs.declared.Slot.{Slot};
ghost use Rattle.readiness.specs.Events.{due_event};
ghost use Rattle.readiness.specs.MadeReady.{made_by};
ghost use Rattle.frs_queue.specs.Queue.{no_tally};
ghost use Rattle.records.specs.declared.Record.TheVariants as variants;
ghost use Rattle.records.specs.State.{Seat, seat};
ghost use Rattle.records.specs.Answer.{does};
ghost use Rattle.records.specs.Requests.{write_seat};
ghost use Rattle.records.specs.inner.Parts.{slot_effect, slot_answered, slot_readied, slot_run, slot_ran};

use crate::answering::plain_reply;
use crate::port::root_port;
use crate::routing::{is_access, refused_data, route_completion, route_of};
use readiness::{Dev, Slot, Status};
use records::{Completion, Reply, Request, SlotDone};
use registers::{Kind, Masks};

// As link down in that slot, if No_Soft_Reset is 0 in the new PMCSR; else no other bit changes.
fn d3hot_reset(table: &Masks, kind: Kind, slot: usize, new: u32, live: &mut [u32], defaults: &[u32])
    ensures { live.new ≡ cond (bit new 3) live.old (link_reset_slot kind slot live.old defaults.now) }
{
    if new & 8 == 0 {
        config_words::link_reset_slot(table, kind, slot, live, defaults);
    }
}

// Configuration write of a Ready slot: the write is finished first, then the FLR or the way from D3hot starts, if it is one.
fn write_ready(
    table: &Masks,
    kind: Kind,
    entry: Slot,
    dev: Dev,
    status: Status,
    live: &mut [u32],
    defaults: &[u32],
    q: Request,
    value: u32,
) -> Status
    requires slot_in_bounds { (q.slot * 64 + 64 ≤ length live.old) × (q.slot * 64 + 64 ≤ length defaults.now) × (q.word < 64) }
    ensures { (cells : List ℕ) → seat dev result live.new cells ≡ write_seat kind entry defaults.now q value (seat dev status live.old cells) }
{
    let slot = q.slot;
    let word = q.word;
    let at = slot * 64 + word;
    let capabilities = slot * 64 + registers::flr_capability_word(kind);
    let old = live[at];
    let new = registers::write_word(table, kind, word, old, value, q.enables);
    live[at] = new;
    let clock = dev.clock;
    if registers::starts_flr(kind, word, value, q.enables, defaults[capabilities]) {
        config_words::flr_reset_slot(table, kind, slot, live, defaults);
        return settle::flr_status(clock, entry);
    }
    if registers::starts_d3hot(kind, word, old, new) {
        d3hot_reset(table, kind, slot, new, live, defaults);
        return settle::d3hot_status(clock, entry);
    }
    status
}

// Before the answer to a record that is done, the slot becomes Ready if its ready time is at or before the clock.
fn settled(
    bus: u8,
    entry: Slot,
    slot: usize,
    dev: Dev,
    status: Status,
    cells: &mut [u32],
    data: u32,
) -> SlotDone
    requires { slot < 32 }
    ensures cells_after { (before : Seat) (live : List ℕ) → slot_ran result live cells.new
        ≡ slot_answered bus entry slot before (does (seat dev status live cells.old) no_tally «data») }
    ensures made_value { result.made ≡ made_by (due_event dev.clock slot status.phase) }
{
    let settled = settle::settle_slot(bus, entry, slot, status, root_port(dev), cells);
    SlotDone {
        dev: settled.port.dev,
        status: settled.status,
        reply: Reply {
            completion: Completion::Done,
            tally: settled.port.tally,
            data,
        },
        made: settled.made,
    }
}

// A configuration read runs: it changes nothing.
pub fn run_read(
    slots: usize,
    kind: Kind,
    dev: Dev,
    status: Status,
    live: &[u32],
    q: Request,
) -> Reply
    requires { 64 * slots ≤ length live.now }
    ensures { (bus : ℕ) (entry : Slot) (defaults : List ℕ) (slot : ℕ) (cells : List ℕ)
        → slot_run slots kind bus entry defaults slot (variants.Read q) (seat dev status live.now cells) ≡ record { after = seat dev status live.now cells; reply = result } }
{
    let route = route_of(slots, kind, dev, status, true, q);
    if is_access(route) {
        let at = q.slot * 64 + q.word;
        let data = registers::read_word(kind, q.word, live[at], q.enables);
        return plain_reply(Completion::Done, data);
    }
    plain_reply(
        route_completion(route),
        refused_data(true, q.enables, route),
    )
}

// The answer to a write that is done: a slot that is still Ready is not due.
fn finished(
    bus: u8,
    entry: Slot,
    slot: usize,
    dev: Dev,
    status: Status,
    cells: &mut [u32],
) -> SlotDone
    requires { slot < 32 }
    ensures cells_after { (before : Seat) (live : List ℕ) → slot_ran result live cells.new
        ≡ slot_answered bus entry slot before (does (seat dev status live cells.old) no_tally 0) }
    ensures made_value { result.made ≡ made_by (due_event dev.clock slot status.phase) }
{
    if settle::is_ready(status) {
        return SlotDone {
            dev,
            status,
            reply: plain_reply(Completion::Done, 0),
            made: None,
        };
    }
    settled(bus, entry, slot, dev, status, cells, 0)
}

// A configuration write runs.
pub fn run_write(
    table: &Masks,
    slots: usize,
    kind: Kind,
    bus: u8,
    entry: Slot,
    slot: usize,
    dev: Dev,
    status: Status,
    live: &mut [u32],
    defaults: &[u32],
    cells: &mut [u32],
    q: Request,
    value: u32,
) -> SlotDone
    requires slot_bound { (slot < 32) × (64 * slots ≤ length live.old) × (64 * slots ≤ length defaults.now) }
    ensures cells_after { slot_ran result live.new cells.new
        ≡ slot_run slots kind bus entry defaults.now slot (variants.Write q value) (seat dev status live.old cells.old) }
    ensures made_value { result.made ≡ made_by (slot_readied slot (slot_effect slots kind entry defaults.now (variants.Write q value) (seat dev status live.old cells.old))) }
{
    let route = route_of(slots, kind, dev, status, false, q);
    if is_access(route) {
        let after = write_ready(table, kind, entry, dev, status, live, defaults, q, value);
        return finished(bus, entry, slot, dev, after, cells);
    }
    SlotDone {
        dev,
        status,
        reply: plain_reply(route_completion(route), 0),
        made: None,
    }
}

// Hardware sets bits of a slot's word: no more than the word changes.
pub fn run_hardware(
    table: &Masks,
    slots: usize,
    kind: Kind,
    status: Status,
    live: &mut [u32],
    slot: usize,
    word: usize,
    mask: u32,
) -> Reply
    requires slots_in_bounds { 64 * slots ≤ length live.old }
    ensures { (dev : Dev) (bus : ℕ) (entry : Slot) (defaults : List ℕ) (at : ℕ) (cells : List ℕ)
        → slot_run slots kind bus entry defaults at (variants.HardwareSet slot word mask) (seat dev status live.old cells) ≡ record { after = seat dev status live.new cells; reply = result } }
{
    if slot >= slots {
        return plain_reply(Completion::NoSlot, 0);
    }
    if word > 63 {
        return plain_reply(Completion::NoWord, 0);
    }
    if !settle::is_ready(status) {
        return plain_reply(Completion::WrongState, 0);
    }
    let at = slot * 64 + word;
    live[at] = registers::hardware_set(table, kind, word, live[at], mask);
    plain_reply(Completion::Done, 0)
}
