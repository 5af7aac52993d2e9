// The entries of a call that is not stopped, each in its turn.
ghost use Rattle.std.specs.Prelude.{◌≡◌, List, [], ◌+◌, ◌≤◌, ◌<◌, length, Option};
ghost use Rattle.capture.specs.Lent.{progress_in};
ghost use Rattle.demand3.specs.Held.{opened, carried_of};
ghost use Rattle.set_up.specs.Lent.{held_in};
ghost use Rattle.feed.specs.inner.Calls.{NotRefused, Completes};
ghost use Rattle.replay_state.specs.inner.Moves.{Tidy};
ghost use Rattle.times.specs.declared.Nanos.{Nanos};
ghost use Rattle.replay.specs.Left.{left_noting};
ghost use Rattle.replay.specs.inner.Noted.{noted_in};
ghost use Rattle.replay.specs.inner.Calls.{Between, comes_to, took_kind_of, ends_at, carried_on};

use crate::stretching::next_stretch;
use crate::writing::LONG;
use crate::{End, ReplayedPort};
use capture::Replay;
use decode::gathering::{first_bytes, whole_size};
use feed::closing::{carry_on, nothing_carried};
use feed::running::run_input;
use readiness::{Dev, Setup};
use records::Port;
use registers::Masks;
use replay_state::stamps::begin_record;

// Where the kind byte is consumed, its stamp is the earlier one.
fn took_kind(r: Replay, consumed: usize) -> Replay
    requires tidy { Tidy r }
    requires stamp_len_value { 0 < consumed → r.stamp_len ≡ 4 }
    ensures { result ≡ took_kind_of r consumed }
{
    if consumed == 0 { r } else { begin_record(r) }
}

// The end of a call, which runs no record more: what is left of the input begins a record, or none.
fn ending(dev: Dev, end: End, input: &[u8], w: usize) -> ReplayedPort
    requires tidy { Tidy end.replay }
    requires at_in_bounds { (end.at ≤ length input.now) × (end.at < length input.now → end.replay.stamp_len ≡ 4) }
    ensures { result ≡ ends_at dev end input.now w }
{
    if end.number != 0 {
        return ReplayedPort {
            number: end.number,
            consumed: end.at,
            written: w,
            port: nothing_carried(dev),
            replay: end.replay,
        };
    }
    let rest = carry_on(nothing_carried(dev), &input[end.at..]);
    ReplayedPort {
        number: rest.number,
        consumed: end.at + rest.consumed,
        written: w,
        port: rest.port,
        replay: took_kind(end.replay, rest.consumed),
    }
}

// Kept: what is lent goes as slices beside set-up and device, and how they fit stands in clauses, since a struct of `&mut` slices needs a clause on its ghost name in each function.
// A call with nothing carried: stretch by stretch, each written out as a trace, whose records run in their turn, until the call ends.
fn run_entries(
    table: &Masks,
    setup: Setup,
    start: Dev,
    begun: Replay,
    phases: &mut [u64],
    live: &mut [u32],
    defaults: &[u32],
    cells: &mut [u32],
    input: &[u8],
    answers: &mut [u8],
) -> ReplayedPort
    requires not_refused { NotRefused setup defaults.now (held_in (opened start) phases.old live.old cells.old) }
    requires between { Between begun }
    ensures answers_after { (kept : List (Option Nanos)) → left_noting kept result phases.new live.new cells.new answers.new
        ≡ comes_to setup defaults.now (noted_in kept start phases.old live.old cells.old) [] (progress_in begun) input.now answers.old }
    ensures consumed_in_bounds { (result.consumed ≤ length input.now) × (result.written ≤ length answers.old) }
{
    let mut trace = [0u8; LONG];
    let mut dev = start;
    let mut r = begun;
    let mut at: usize = 0;
    let mut w: usize = 0;
    // Kept: each turn goes as far as its stretch does, and counts no index.
    loop {
        let s = match next_stretch(r, input, at, answers.len() - w, &mut trace) {
            Ok(s) => s,
            Err(end) => return ending(dev, end, input, w),
        };
        let end = w + s.answers;
        let fed = run_input(
            table,
            setup,
            dev,
            &mut *phases,
            &mut *live,
            defaults,
            &mut *cells,
            &trace[0..s.len],
            &mut answers[w..end],
        );
        dev = fed.port.dev;
        r = s.replay;
        at = s.at;
        w = end;
    }
}

// Two parts of a call, one after the other: the first consumed so much, and wrote one answer.
fn after_record(consumed: usize, rest: ReplayedPort) -> ReplayedPort
    requires { (consumed + rest.consumed < 18446744073709551616) × (8 + rest.written < 18446744073709551616) }
    ensures { result ≡ record { number = rest.number; consumed = consumed + rest.consumed; written = 8 + rest.written; port = rest.port; replay = rest.replay } }
{
    ReplayedPort {
        consumed: consumed + rest.consumed,
        written: 8 + rest.written,
        ..rest
    }
}

// A call with bytes carried that completes no record.
fn carried_on(port: Port, r: Replay, input: &[u8]) -> ReplayedPort
    requires { port.carried_len ≤ 16 }
    ensures { result ≡ carried_on port r input.now }
{
    let rest = carry_on(port, input);
    ReplayedPort {
        number: rest.number,
        consumed: rest.consumed,
        written: 0,
        port: rest.port,
        replay: r,
    }
}

// Kept: what is lent goes as slices beside set-up and device, and how they fit stands in clauses, since a struct of `&mut` slices needs a clause on its ghost name in each function.
// A call with bytes carried that begin a record of `size` bytes, which is whole now: that record, and then the entries.
fn run_joined(
    table: &Masks,
    setup: Setup,
    port: Port,
    size: usize,
    begun: Replay,
    phases: &mut [u64],
    live: &mut [u32],
    defaults: &[u32],
    cells: &mut [u32],
    input: &[u8],
    answers: &mut [u8],
) -> ReplayedPort
    requires not_refused { NotRefused setup defaults.now (held_in port phases.old live.old cells.old) }
    requires between { Between begun }
    requires carried_len_nonzero { 0 < port.carried_len }
    requires completes { Completes port input.now (length answers.old) size }
    ensures { (kept : List (Option Nanos)) → left_noting kept result phases.new live.new cells.new answers.new
        ≡ comes_to setup defaults.now (noted_in kept port.dev phases.old live.old cells.old) (carried_of port) (progress_in begun) input.now answers.old }
{
    let len = port.carried_len;
    let missing = size - len;
    let bytes: [u8; 17] = first_bytes(&port.carried, len, input, size);
    let first = run_input(
        table,
        setup,
        port.dev,
        &mut *phases,
        &mut *live,
        defaults,
        &mut *cells,
        &bytes[0..size],
        &mut answers[0..8],
    );
    let rest = run_entries(
        table,
        setup,
        first.port.dev,
        begun,
        phases,
        live,
        defaults,
        cells,
        &input[missing..],
        &mut answers[8..],
    );
    after_record(missing, rest)
}

// Kept: what is lent goes as slices beside set-up and device, and how they fit stands in clauses, since a struct of `&mut` slices needs a clause on its ghost name in each function.
// A call that is not stopped, with the state of the replay as a call leaves it.
pub fn run_capture(
    table: &Masks,
    setup: Setup,
    port: Port,
    begun: Replay,
    phases: &mut [u64],
    live: &mut [u32],
    defaults: &[u32],
    cells: &mut [u32],
    input: &[u8],
    answers: &mut [u8],
) -> ReplayedPort
    requires not_refused { NotRefused setup defaults.now (held_in port phases.old live.old cells.old) }
    requires between { Between begun }
    ensures { (kept : List (Option Nanos)) → left_noting kept result phases.new live.new cells.new answers.new
        ≡ comes_to setup defaults.now (noted_in kept port.dev phases.old live.old cells.old) (carried_of port) (progress_in begun) input.now answers.old }
{
    let len = port.carried_len;
    if len == 0 {
        return run_entries(
            table, setup, port.dev, begun, phases, live, defaults, cells, input, answers,
        );
    }
    let size = whole_size(&port.carried, len, input, answers.len());
    if size == 0 {
        return carried_on(port, begun, input);
    }
    run_joined(
        table, setup, port, size, begun, phases, live, defaults, cells, input, answers,
    )
}
