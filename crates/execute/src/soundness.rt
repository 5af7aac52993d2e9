// The test for refusal 5, but for the carried bytes.
// Kept in this file: what is lent goes as slices beside set-up and device, and how they fit stands in clauses, since a struct of `&mut` slices needs a clause on its ghost name in each function.
ghost use Rattle.std.specs.Prelude.{◌≡◌, ◌&&◌, List, ℕ, ◌+◌, ◌≤◌, ◌<◌, ltb, leb, length, get_or};
ghost use Rattle.times.specs.Codes.{greatest_time};
ghost use Rattle.frs_queue.specs.Queue.{place_of};
ghost use Rattle.readiness.specs.declared.Setup.{Setup};
ghost use Rattle.readiness.specs.inner.Phases.{statuses_in};
ghost use Rattle.records.specs.State.{state};
ghost use Rattle.records.specs.Sound.{sound_cause, sound_phase, matches_link, sound_status, sound_statuses, sound_cell, sound_cells, sound_owed, sound};

use readiness::{Cause, Dev, Phase, Status};
use settle::phases::status_at;
use times::Nanos;

// After the clock, and at most the greatest time after it.
fn waits(clock: Nanos, ready: Nanos) -> bool
    ensures { result ≡ (ltb clock.0 ready.0 && leb ready.0 (clock.0 + greatest_time)) }
{
    let now = times::nanos_number(clock);
    let then = times::nanos_number(ready);
    now < then && then - now <= times::GREATEST_TIME
}

// An FLR end isn't after its ready time.
fn sound_cause(cause: Cause, ready: Nanos) -> bool
    ensures { result ≡ sound_cause cause ready }
{
    match cause {
        Cause::LinkUp | Cause::D3hot => true,
        Cause::Flr(end) => end <= ready,
    }
}

fn sound_phase(clock: Nanos, phase: Phase) -> bool
    ensures { result ≡ sound_phase clock phase }
{
    match phase {
        Phase::Down | Phase::Ready => true,
        Phase::Pending(cause, ready) => waits(clock, ready) && sound_cause(cause, ready),
    }
}

// No Down slot with the link up, nor any other with it down.
fn matches_link(link: bool, phase: Phase) -> bool
    ensures { result ≡ matches_link link phase }
{
    match phase {
        Phase::Down => !link,
        Phase::Pending(_, _) | Phase::Ready => link,
    }
}

fn sound_status(dev: Dev, status: Status) -> bool
    ensures { result ≡ sound_status dev status }
{
    sound_phase(dev.clock, status.phase) && matches_link(dev.link, status.phase)
}

// Each of the card's slots.
fn sound_statuses(slots: usize, dev: Dev, phases: &[u64]) -> bool
    requires { length (statuses_in phases.now) ≡ slots }
    ensures { result ≡ sound_statuses slots dev (statuses_in phases.now) }
{
    for i in 0..slots {
        if !sound_status(dev, status_at(phases, i)) {
            return false;
        }
    }
    true
}

// The cell of the message that stands k places behind the oldest.
fn cell_at(cells: &[u32], start: usize, k: usize) -> u32
    requires { k < length cells.now }
    ensures { result ≡ get_or cells.now (place_of (length cells.now) start k) 0 }
{
    let at = frs_queue::place(start, k, cells.len());
    cells[at]
}

// A live cell is below 2^20, and its reason is one that an FRS may have.
fn sound_cell(value: u32) -> bool
    ensures { result ≡ sound_cell value }
{
    value < 1048576 && messages::frs_allowed((value / 65536) as u8)
}

// Each live cell.
fn sound_cells(depth: usize, cells: &[u32], start: usize) -> bool
    requires { depth ≤ length cells.now }
    ensures { result ≡ sound_cells depth cells.now start }
{
    for k in 0..depth {
        if !sound_cell(cell_at(cells, start, k)) {
            return false;
        }
    }
    true
}

// A DRS isn't owed with the link down, nor with every slot Ready.
fn sound_owed(dev: Dev, slots: usize, phases: &[u64]) -> bool
    requires { length (statuses_in phases.now) ≡ slots }
    ensures { (setup : Setup) → setup.slots ≡ slots → result ≡ sound_owed setup dev (statuses_in phases.now) }
{
    !dev.owed || (dev.link && !settle::all_ready(slots, phases))
}

// The test for refusal 5.
#[tactic(auto, unfolding(records::specs::Sound::sound))]
pub fn is_sound(slots: usize, dev: Dev, phases: &[u64], cells: &[u32]) -> bool
    requires { length (statuses_in phases.now) ≡ slots }
    ensures { (setup : Setup) (live : List ℕ) → setup.slots ≡ slots → result ≡ sound setup (state dev (statuses_in phases.now) live cells.now) }
{
    let start = dev.queue.start;
    let depth = dev.queue.depth;
    times::nanos_number(dev.clock) <= times::CLOCK_END
        && start < cells.len()
        && depth <= cells.len()
        && sound_cells(depth, cells, start)
        && dev.control.signalling <= 2
        && sound_statuses(slots, dev, phases)
        && sound_owed(dev, slots, phases)
}
