// Slot statuses as numbers, four to a slot: the phase with its cause, the ready time, the end of an FLR, and the moment at which the slot last became
// Ready, which is no part of its status. They are lent as a slice of numbers, and changed in place.
// Kept in this file: statuses as numbers, an index below their count: `feed::feed_lent` lends them so; arrays by value lose half the speed of resets and long advances.
ghost use Rattle.std.specs.Prelude.{◌≡◌, ◌<◌, length, get_or, set};
ghost use Rattle.readiness.specs.Status.{ready};
ghost use Rattle.readiness.specs.inner.Phases.{status_of, statuses_in, moments_in, notes_at};

use readiness::{Cause, Phase, Status};
use times::Nanos;

// Pending, with a ready time in nanoseconds.
fn pending(cause: Cause, ready_ns: u64) -> Status
    ensures { result ≡ record { phase = Phase.Pending cause (record { 0 = ready_ns }) } }
{
    let time = times::nanos_of(ready_ns);
    Status {
        phase: Phase::Pending(cause, time),
    }
}

// The status that three numbers are.
fn status_of(phase: u64, ready_ns: u64, end_ns: u64) -> Status
    ensures { result ≡ status_of phase ready_ns end_ns }
{
    match phase {
        0 => Status { phase: Phase::Down },
        1 => pending(Cause::LinkUp, ready_ns),
        2 => pending(Cause::Flr(times::nanos_of(end_ns)), ready_ns),
        3 => pending(Cause::D3hot, ready_ns),
        _ => Status {
            phase: Phase::Ready,
        },
    }
}

// Slot i's status.
pub fn status_at(phases: &[u64], i: usize) -> Status
    requires { i < length (statuses_in phases.now) }
    ensures { result ≡ get_or (statuses_in phases.now) i ready }
{
    let at = 4 * i;
    status_of(phases[at], phases[at + 1], phases[at + 2])
}

// Slot i's status anew.
pub fn put_status(phases: &mut [u64], i: usize, status: Status)
    requires { i < length (statuses_in phases.old) }
    ensures phases_after { statuses_in phases.new ≡ set (statuses_in phases.old) i status }
    ensures phases_unchanged { moments_in phases.new ≡ moments_in phases.old }
{
    let at = 4 * i;
    match status.phase {
        Phase::Down => {
            phases[at] = 0;
        }
        Phase::Ready => {
            phases[at] = 4;
        }
        Phase::Pending(cause, ready) => {
            phases[at + 1] = times::nanos_number(ready);
            match cause {
                Cause::LinkUp => {
                    phases[at] = 1;
                }
                Cause::D3hot => {
                    phases[at] = 3;
                }
                Cause::Flr(end) => {
                    phases[at] = 2;
                    phases[at + 2] = times::nanos_number(end);
                }
            }
        }
    }
}

// The moment at which slot i last became Ready.
pub fn put_moment(phases: &mut [u64], i: usize, moment_ns: u64)
    requires { i < length (statuses_in phases.old) }
    ensures phases_unchanged { statuses_in phases.new ≡ statuses_in phases.old }
    ensures phases_after { moments_in phases.new ≡ set (moments_in phases.old) i moment_ns }
{
    phases[4 * i + 3] = moment_ns;
}

// The same, if the slot became Ready.
pub fn note(phases: &mut [u64], i: usize, made: Option<Nanos>)
    requires { i < length (statuses_in phases.old) }
    ensures phases_unchanged { statuses_in phases.new ≡ statuses_in phases.old }
    ensures phases_after { moments_in phases.new ≡ notes_at made i (moments_in phases.old) }
{
    if let Some(time) = made {
        put_moment(phases, i, times::nanos_number(time));
    }
}

// The numbers of 32 statuses.
pub fn in_numbers(statuses: [Status; 32]) -> [u64; 128]
    ensures { statuses_in result ≡ statuses }
{
    let mut phases = [0u64; 128];
    for i in 0..32 {
        put_status(&mut phases, i, statuses[i]);
    }
    phases
}

// The statuses of 128 numbers.
pub fn in_statuses(phases: [u64; 128]) -> [Status; 32]
    ensures { result ≡ statuses_in phases }
{
    let mut statuses = [Status {
        phase: Phase::Ready,
    }; 32];
    for i in 0..32 {
        statuses[i] = status_at(&phases, i);
    }
    statuses
}
