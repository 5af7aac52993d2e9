// What starts a slot anew, and what a reset leaves of the device.
// Kept in this file: at most 32 slots, and as many numbers as slots, are facts of plain set-ups and of memory that is lent.
ghost use Rattle.std.specs.Prelude.{◌≡◌, ◌≤◌, length};
ghost use Rattle.times.specs.Codes.{nanos_of};
ghost use Rattle.times.specs.Moments.{sum_of};
ghost use Rattle.readiness.specs.Status.{pending, started_by_link_up, stopped_by_reset, started_by_flr, started_by_d3hot, after_link_up, after_reset, after_link_down, after_cold_reset};
ghost use Rattle.readiness.specs.inner.Phases.{statuses_in, moments_in};

use crate::phases::put_status;
use readiness::{Cause, Dev, Phase, Setup, Slot, Status};
use times::Nanos;

// A slot at link up: Pending until the clock plus its DL Up Time.
fn link_up_status(clock: Nanos, entry: Slot) -> Status
    ensures { result ≡ pending Cause.LinkUp (sum_of clock (nanos_of entry.dl_up)) }
{
    let ready = times::sum(clock, times::in_nanos(entry.dl_up));
    Status {
        phase: Phase::Pending(Cause::LinkUp, ready),
    }
}

// Link up: every slot is starting.
pub fn start_all(setup: Setup, dev: Dev, phases: &mut [u64])
    requires { (setup.slots ≤ 32) × (length (statuses_in phases.old) ≡ setup.slots) }
    ensures phases_after { statuses_in phases.new ≡ started_by_link_up setup dev (statuses_in phases.old) }
    ensures phases_unchanged { moments_in phases.new ≡ moments_in phases.old }
{
    for i in 0..setup.slots {
        let status = link_up_status(dev.clock, setup.entries[i]);
        put_status(&mut *phases, i, status);
    }
}

// The device after link up: a DRS is owed.
pub fn after_link_up(dev: Dev) -> Dev
    ensures { result ≡ after_link_up dev }
{
    Dev {
        link: true,
        owed: true,
        ..dev
    }
}

// The statuses after link down or cold reset.
pub fn reset_statuses(setup: Setup, dev: Dev, statuses: [Status; 32]) -> [Status; 32]
    ensures { result ≡ stopped_by_reset setup dev statuses }
{
    let mut out = statuses;
    for i in 0..setup.slots.min(32) {
        out[i] = Status { phase: Phase::Down };
    }
    out
}

// Link down or cold reset: every slot is Down.
pub fn stop_all(setup: Setup, dev: Dev, phases: &mut [u64])
    requires { length (statuses_in phases.old) ≡ setup.slots }
    ensures phases_after { statuses_in phases.new ≡ stopped_by_reset setup dev (statuses_in phases.old) }
    ensures phases_unchanged { moments_in phases.new ≡ moments_in phases.old }
{
    for i in 0..setup.slots {
        put_status(&mut *phases, i, Status { phase: Phase::Down });
    }
}

// The device after link down or cold reset: link down, nothing owed, queue emptied.
fn after_reset(dev: Dev) -> Dev
    ensures { result ≡ after_reset dev }
{
    Dev {
        link: false,
        owed: false,
        queue: frs_queue::empty(dev.queue),
        ..dev
    }
}

// The device after link down.
pub fn after_link_down(dev: Dev) -> Dev
    ensures { result ≡ after_link_down dev }
{
    Dev {
        drs_received: false,
        ..after_reset(dev)
    }
}

// The device after cold reset.
pub fn after_cold_reset(dev: Dev) -> Dev
    ensures { result ≡ after_cold_reset dev }
{
    let mut d = after_reset(dev);
    d.drs_received = false;
    d.control = readiness::blank_control();
    d.queue.received = false;
    d.queue.overflow = false;
    d
}

// A slot in which an FLR starts.
pub fn flr_status(clock: Nanos, entry: Slot) -> Status
    ensures { result ≡ started_by_flr clock entry }
{
    let t = times::in_nanos(entry.flr);
    let most = times::nanos_of(100000000);
    let end = times::sum(clock, t.min(most));
    let ready = times::sum(clock, t);
    Status {
        phase: Phase::Pending(Cause::Flr(end), ready),
    }
}

// A slot that returns from D3hot.
pub fn d3hot_status(clock: Nanos, entry: Slot) -> Status
    ensures { result ≡ started_by_d3hot clock entry }
{
    let t = times::in_nanos(entry.d3hot);
    let ready = times::sum(clock, t);
    Status {
        phase: Phase::Pending(Cause::D3hot, ready),
    }
}
