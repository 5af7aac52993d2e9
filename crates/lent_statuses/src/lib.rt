// Slot statuses as they are lent: read, replaced, copied in and out.
#![tactic(auto)]

ghost use Rattle.std.specs.Prelude.{◌≡◌, get_or, set};
ghost use Rattle.readiness.specs.Status.{ready};
ghost use Rattle.demand3.specs.Held.{lent_of};
ghost use Rattle.lent_statuses.specs.Statuses.{stored_over};

use readiness::{Phase, Status};

// The status of a slot; past the end, the status that is given for it.
pub fn status_at(statuses: &[Status], slot: usize, past: Status) -> Status
    ensures { result ≡ get_or statuses.now slot past }
{
    if slot < statuses.len() {
        statuses[slot]
    } else {
        past
    }
}

// A slot's status is replaced; past the end, none is.
pub fn replace_status(statuses: &mut [Status], slot: usize, status: Status)
    ensures { statuses.new ≡ set statuses.old slot status }
{
    if slot < statuses.len() {
        statuses[slot] = status;
    }
}

fn ready_status() -> Status
    ensures { result ≡ ready }
{
    Status {
        phase: Phase::Ready,
    }
}

// The first 32 of the statuses; where fewer are lent, Ready past their end.
pub fn load(statuses: &[Status]) -> [Status; 32]
    ensures { result ≡ lent_of 32 statuses.now }
{
    let past = ready_status();
    let mut array = [past; 32];
    for i in 0..statuses.len().min(32) {
        array[i] = status_at(statuses, i, past);
    }
    array
}

// The array's statuses replace those that are lent, as many as both have.
pub fn store(statuses: &mut [Status], array: [Status; 32])
    ensures { statuses.new ≡ stored_over statuses.old array }
{
    for i in 0..statuses.len().min(32) {
        replace_status(statuses, i, array[i]);
    }
}
