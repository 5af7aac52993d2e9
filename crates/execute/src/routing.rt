// Where a configuration request goes, and what answers one that isn't done.
ghost use Rattle.std.specs.Prelude.{◌≡◌, true, ◌<◌};
ghost use Rattle.records.specs.Route.{reads_vendor_id, crs_of, pending_route, phase_route, route_of, crs_completion, route_completion, crs_data, shown_data, read_data, refused_data, is_access};

use readiness::{Cause, Dev, Phase, Status};
use records::{Completion, Crs, Request, Route};
use registers::{Kind, lane_mask};
use times::Nanos;

// A read of word 0 with enables 0 and 1.
#[tactic(auto, using(crate::proofs::Tests::first_bit, crate::proofs::Tests::second_bit), unfolding(records::specs::Route::reads_vendor_id))]
fn reads_vendor_id(is_read: bool, q: Request) -> bool
    ensures { result ≡ reads_vendor_id is_read q }
{
    is_read && q.word == 0 && q.enables & 1 != 0 && q.enables & 2 != 0
}

// CRS at the root: shown, or to be re-issued.
#[tactic(auto, unfolding(records::specs::Route::crs_of))]
fn crs_of(visibility: bool, is_read: bool, q: Request) -> Crs
    ensures { result ≡ crs_of visibility is_read q }
{
    if !visibility {
        Crs::VisibilityOff
    } else if reads_vendor_id(is_read, q) {
        Crs::Shown
    } else {
        Crs::NotVendorId
    }
}

// FLR in progress; else the slot is starting.
#[tactic(auto, unfolding(records::specs::Route::pending_route))]
fn pending_route(clock: Nanos, cause: Cause, ready: Nanos, crs: Crs) -> Route
    ensures { result ≡ pending_route clock cause ready crs }
{
    match cause {
        Cause::Flr(end) if clock < end => Route::FlrInProgress(end),
        _ => Route::Starting(cause, ready, crs),
    }
}

// Kept: what a route depends on, from parts of the device and the status; a struct for it would be made for this call alone.
// By the slot's status, with the link up. How CRS is shown is asked for a slot alone that is starting.
fn phase_route(clock: Nanos, phase: Phase, visibility: bool, is_read: bool, q: Request) -> Route
    ensures { result ≡ phase_route clock phase (crs_of visibility is_read q) }
{
    match phase {
        Phase::Down => Route::LinkDown,
        Phase::Pending(cause, ready) => pending_route(
            clock,
            cause,
            ready,
            crs_of(visibility, is_read, q),
        ),
        Phase::Ready => Route::Access,
    }
}

// Kept: six parameters, which `route_of` in records takes one by one.
// Order: 20, 21, 24, 18, then 16 or 17; the same for every kind. Access is for a slot and a word that there are.
#[tactic(auto, unfolding(records::specs::Route::route_of))]
pub fn route_of(
    slots: usize,
    kind: Kind,
    dev: Dev,
    status: Status,
    is_read: bool,
    q: Request,
) -> Route
    ensures value { result ≡ route_of slots kind dev status is_read q }
    ensures slot_lt_slots { is_access result ≡ true → (q.slot < slots) × (q.word < 64) }
{
    if q.slot >= slots {
        Route::NoSlot
    } else if q.word > 63 {
        Route::NoWord
    } else if q.enables > 15 {
        Route::BadEnables
    } else if !dev.link {
        Route::LinkDown
    } else {
        phase_route(dev.clock, status.phase, dev.control.visibility, is_read, q)
    }
}

fn crs_completion(crs: Crs) -> Completion
    ensures { result ≡ crs_completion crs }
{
    match crs {
        Crs::Shown => Completion::CrsShown,
        Crs::VisibilityOff | Crs::NotVendorId => Completion::CrsRetry,
    }
}

// The status of each route.
pub fn route_completion(route: Route) -> Completion
    ensures { result ≡ route_completion route }
{
    match route {
        Route::NoSlot => Completion::NoSlot,
        Route::NoWord => Completion::NoWord,
        Route::BadEnables => Completion::BadValue,
        Route::LinkDown | Route::FlrInProgress(_) => Completion::Unsupported,
        Route::Starting(_, _, crs) => crs_completion(crs),
        Route::Access => Completion::Done,
    }
}

// CRS shown: vendor bytes 0001h, other enabled bytes FFh.
fn crs_data(enables: u8) -> u32
    ensures { result ≡ crs_data enables }
{
    lane_mask(enables) & 0xFFFF0001
}

fn shown_data(enables: u8, crs: Crs) -> u32
    ensures { result ≡ shown_data enables crs }
{
    match crs {
        Crs::Shown => crs_data(enables),
        Crs::VisibilityOff | Crs::NotVendorId => 0,
    }
}

// The data of a read that isn't done: with 18, FFh in enabled bytes.
fn read_data(enables: u8, route: Route) -> u32
    ensures { result ≡ read_data enables route }
{
    match route {
        Route::LinkDown | Route::FlrInProgress(_) => lane_mask(enables),
        Route::Starting(_, _, crs) => shown_data(enables, crs),
        Route::NoSlot | Route::NoWord | Route::BadEnables | Route::Access => 0,
    }
}

// The data of an answer to a request that isn't done: none for a write.
pub fn refused_data(is_read: bool, enables: u8, route: Route) -> u32
    ensures { result ≡ refused_data is_read enables route }
{
    if is_read {
        read_data(enables, route)
    } else {
        0
    }
}

// The slot can be accessed.
pub fn is_access(route: Route) -> bool
    ensures { result ≡ is_access route }
{
    matches!(route, Route::Access)
}
