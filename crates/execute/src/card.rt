// Records that touch every slot: advance clock, link up, link down, cold reset.
// Kept in this file: what is lent goes as slices beside set-up and device, and how they fit stands in clauses, since a struct of `&mut` slices needs a clause on its ghost name in each function.
ghost use Rattle.std.specs.Prelude.{◌≡◌, false, ◌&&◌, List, [], ℕ, ◌*◌, ◌≤◌, length, IsOk, IfOk, OnErr};
ghost use Rattle.config_space.specs.Functions.{link_reset_all};
ghost use Rattle.times.specs.Moments.{sum_of};
ghost use Rattle.frs_queue.specs.Queue.{no_tally};
ghost use Rattle.readiness.specs.declared.Status.{Status};
ghost use Rattle.readiness.specs.declared.Setup.{Setup};
ghost use Rattle.readiness.specs.Status.{all_ready};
ghost use Rattle.readiness.specs.Events.{due};
ghost use Rattle.records.specs.declared.Record.TheVariants as variants;
ghost use Rattle.records.specs.State.{State, state, slot_kind};
ghost use Rattle.records.specs.Answer.{does, answered};
ghost use Rattle.records.specs.MadeReady.{readied_by};
ghost use Rattle.readiness.specs.Fields.{with_clock};
ghost use Rattle.records.specs.CardRecords.{advance_effect, link_up_effect, link_down_effect, cold_reset_effect};
ghost use Rattle.readiness.specs.inner.Phases.{statuses_in, moments_in, notes};
ghost use Rattle.records.specs.inner.Parts.{card_effect, card_run, card_ran, started_effect};
ghost use Rattle.execute.specs.inner.Lent.{state_in, OfCard};

use crate::answering::plain_reply;
use crate::kinds::kind_of_entry;
use crate::port::root_port;
use readiness::{Dev, Setup};
use records::{Completion, PortDone, Record, Reply};
use registers::Masks;
use times::Nanos;

// Advance clock; 22 if the clock would pass its end.
fn advance(dev: Dev, by: Nanos) -> Result<Dev, Completion>
    ensures by_index { (statuses : List Status) (live cells : List ℕ) → started_effect result statuses live cells
        ≡ advance_effect by (state dev statuses live cells) }
    ensures moved { IfOk result (λ after. after ≡ with_clock dev (sum_of dev.clock by)) }
{
    let clock = times::sum(dev.clock, by);
    if times::nanos_number(clock) <= times::CLOCK_END {
        Ok(Dev { clock, ..dev })
    } else {
        Err(Completion::ClockEnd)
    }
}

// Advance clock where no slot becomes Ready and no DRS is to be told: the clock alone moves.
pub fn advance_alone(dev: Dev, by: Nanos) -> PortDone
    ensures { (setup : Setup) (defaults : List ℕ) (statuses : List Status) (live cells : List ℕ)
        → due (sum_of dev.clock by) statuses ≡ [] → (dev.owed && all_ready setup statuses) ≡ false
        → card_run setup defaults (variants.Advance by) (state dev statuses live cells) ≡ record { after = state result.dev statuses live cells; reply = result.reply } }
{
    match advance(dev, by) {
        Ok(after) => PortDone {
            dev: after,
            reply: plain_reply(Completion::Done, 0),
        },
        Err(completion) => PortDone {
            dev,
            reply: plain_reply(completion, 0),
        },
    }
}

// Link up: every slot Pending, a DRS is owed; 23 when up.
fn link_up(setup: Setup, dev: Dev, phases: &mut [u64]) -> Result<Dev, Completion>
    requires { (setup.slots ≤ 32) × (length (statuses_in phases.old) ≡ setup.slots) }
    ensures by_index { (live cells : List ℕ) → started_effect result (statuses_in phases.new) live cells
        ≡ link_up_effect setup (state_in dev phases.old live cells) }
    ensures phases_unchanged { OnErr result (phases.new ≡ phases.old) }
    ensures phases_unchanged_2 { moments_in phases.new ≡ moments_in phases.old }
{
    if dev.link {
        return Err(Completion::WrongState);
    }
    settle::start_all(setup, dev, phases);
    Ok(settle::after_link_up(dev))
}

// Link down of the registers, slot by slot, each by its kind.
fn reset_links(table: &Masks, setup: Setup, live: &mut [u32], defaults: &[u32])
    requires slots_bound { (setup.slots ≤ 32) × (length live.old ≤ setup.slots * 64) }
    ensures { live.new ≡ link_reset_all (slot_kind setup) live.old defaults.now }
{
    let first = setup.entries[0];
    let mut last = config_words::link_masks_of(table, kind_of_entry(first));
    for i in 0..setup.slots {
        let kind = kind_of_entry(setup.entries[i]);
        last = config_words::link_reset_next(table, last, kind, i, live, defaults);
    }
}

// Link down: each slot's registers take their link-down reset; 23 when down.
fn link_down(
    table: &Masks,
    setup: Setup,
    dev: Dev,
    phases: &mut [u64],
    live: &mut [u32],
    defaults: &[u32],
) -> Result<Dev, Completion>
    requires of_card { OfCard setup phases.old live.old }
    ensures by_index { (cells : List ℕ) → started_effect result (statuses_in phases.new) live.new cells
        ≡ link_down_effect setup defaults.now (state_in dev phases.old live.old cells) }
    ensures phases_unchanged { OnErr result ((phases.new ≡ phases.old) × (live.new ≡ live.old)) }
    ensures phases_unchanged_2 { moments_in phases.new ≡ moments_in phases.old }
{
    if !dev.link {
        return Err(Completion::WrongState);
    }
    reset_links(table, setup, live, defaults);
    settle::stop_all(setup, dev, phases);
    Ok(settle::after_link_down(dev))
}

// Cold reset: live registers equal the defaults.
fn cold_reset(
    setup: Setup,
    dev: Dev,
    phases: &mut [u64],
    live: &mut [u32],
    defaults: &[u32],
) -> Result<Dev, Completion>
    requires { length (statuses_in phases.old) ≡ setup.slots }
    ensures by_index { (cells : List ℕ) → started_effect result (statuses_in phases.new) live.new cells
        ≡ cold_reset_effect setup defaults.now (state_in dev phases.old live.old cells) }
    ensures result_value { IsOk result }
    ensures phases_unchanged { moments_in phases.new ≡ moments_in phases.old }
{
    config_words::cold_reset(live, defaults);
    settle::stop_all(setup, dev, phases);
    Ok(settle::after_cold_reset(dev))
}

// What a record that touches every slot does before slots become Ready; another one changes nothing and is answered with 0.
fn start(
    table: &Masks,
    setup: Setup,
    dev: Dev,
    phases: &mut [u64],
    live: &mut [u32],
    defaults: &[u32],
    record: Record,
) -> Result<Dev, Completion>
    requires of_card { OfCard setup phases.old live.old }
    ensures by_index { (cells : List ℕ) → started_effect result (statuses_in phases.new) live.new cells
        ≡ card_effect setup defaults.now «record» (state_in dev phases.old live.old cells) }
    ensures phases_unchanged { OnErr result ((phases.new ≡ phases.old) × (live.new ≡ live.old)) }
    ensures phases_unchanged_2 { moments_in phases.new ≡ moments_in phases.old }
{
    match record {
        Record::Advance(by) => advance(dev, by),
        Record::LinkUp => link_up(setup, dev, phases),
        Record::LinkDown => link_down(table, setup, dev, phases, live, defaults),
        Record::ColdReset => cold_reset(setup, dev, phases, live, defaults),
        _ => Err(Completion::Done),
    }
}

// Before the answer to a record that is done, slots whose ready time is at or before the clock become Ready.
fn settled(setup: Setup, dev: Dev, phases: &mut [u64], cells: &mut [u32]) -> PortDone
    requires { (setup.slots ≤ 32) × (length (statuses_in phases.old) ≡ setup.slots) }
    ensures cells_after { (before : State) (live : List ℕ) → card_ran result (statuses_in phases.new) live cells.new
        ≡ answered setup before (does (state_in dev phases.old live cells.old) no_tally 0) }
    ensures phases_after { moments_in phases.new ≡ notes (due dev.clock (statuses_in phases.old)) (moments_in phases.old) }
{
    let port = settle::settle(setup, phases, root_port(dev), cells);
    let after = port.dev;
    let tally = port.tally;
    PortDone {
        dev: after,
        reply: Reply {
            completion: Completion::Done,
            tally: tally,
            data: 0,
        },
    }
}

// A record that touches every slot runs; another one is answered with 0 and changes nothing.
pub fn run_card(
    table: &Masks,
    setup: Setup,
    dev: Dev,
    phases: &mut [u64],
    live: &mut [u32],
    defaults: &[u32],
    cells: &mut [u32],
    record: Record,
) -> PortDone
    requires of_card { OfCard setup phases.old live.old }
    ensures cells_after { card_ran result (statuses_in phases.new) live.new cells.new
        ≡ card_run setup defaults.now «record» (state_in dev phases.old live.old cells.old) }
    ensures phases_after { moments_in phases.new
        ≡ notes (readied_by (card_effect setup defaults.now «record» (state_in dev phases.old live.old cells.old))) (moments_in phases.old) }
{
    match start(table, setup, dev, phases, live, defaults, record) {
        Ok(after) => settled(setup, after, phases, cells),
        Err(completion) => PortDone {
            dev,
            reply: plain_reply(completion, 0),
        },
    }
}
