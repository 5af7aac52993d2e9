// A trace fed in pieces, or a capture replayed in one call, after set-up, over lent memory.
#![tactic(auto)]

ghost use Rattle.std.specs.Prelude.{◌≡◌, ◌<◌, ◌≤◌};
ghost use Rattle.demand3.specs.Held.{held, lent_of};
ghost use Rattle.demand3.specs.SettingUp.{sets_up};
ghost use Rattle.set_up.specs.Prepared.{prepared};
ghost use Rattle.feed.specs.Left.{left};
ghost use Rattle.trace_in_pieces.specs.Pieces.{blank_held, piece_of, in_pieces, runs_on};
ghost use Rattle.trace_in_pieces.specs.Captures.{replays_on};

use feed::Fed;
use readiness::{Setup, Status, all_down, no_moments};
use records::{Port, blank_port};
use replay_state::stamps::fresh;
use set_up::SetUp;
use settle::phases::{in_numbers, in_statuses};

// How much of what is left the next piece has; a size of 0 stands for all of it.
fn next_piece(size: usize, left: usize) -> usize
    ensures { result ≡ piece_of size left }
{
    if size == 0 {
        return left;
    }
    if left < size {
        return left;
    }
    size
}

fn all_fed(number: u8, consumed: usize, written: usize, port: Port, statuses: [Status; 32]) -> Fed
    ensures { result ≡ record { number = number; consumed = consumed; written = written; port = port; statuses = statuses } }
{
    Fed {
        number: number,
        consumed: consumed,
        written: written,
        port: port,
        statuses: statuses,
    }
}

// Kept: what is lent goes as slices beside set-up and device, and how they fit stands in clauses, since a struct of `&mut` slices needs a clause on its ghost name in each function.
// Feeds the trace piece by piece, until a call gives a number or the trace ends; the counts are those of all calls.
fn feed_pieces(
    setup: Setup,
    start: Port,
    begun: [Status; 32],
    live: &mut [u32],
    defaults: &[u32],
    cells: &mut [u32],
    trace: &[u8],
    size: usize,
    answers: &mut [u8],
) -> Fed
    requires { setup.slots ≤ 32 }
    ensures { left setup.slots result live.new cells.new answers.new
        ≡ in_pieces setup defaults.now size 0 (held start (lent_of setup.slots begun) live.old cells.old) trace.now answers.old }
{
    let table = registers::attributes();
    let mut port = start;
    let mut phases = in_numbers(begun);
    let places = 4 * setup.slots;
    let mut number: u8 = 0;
    let mut consumed: usize = 0;
    let mut written: usize = 0;
    // Kept: each turn goes as far as its call consumed, and counts no index.
    while consumed < trace.len() && number == 0 {
        let end = consumed + next_piece(size, trace.len() - consumed);
        let fed = feed::feed_lent(
            &table,
            setup,
            port,
            &mut phases[0..places],
            &mut *live,
            defaults,
            &mut *cells,
            &trace[consumed..end],
            &mut answers[written..],
        );
        port = fed.port;
        number = fed.number;
        consumed += fed.consumed;
        written += fed.written;
    }
    all_fed(number, consumed, written, port, in_statuses(phases))
}

// Kept: the live words and the cells go as the slices that `set_up` takes.
// Set-up of a blank port with every slot Down.
fn set_up_blank(setup: Setup, live: &mut [u32], defaults: &[u32], cells: &mut [u32]) -> SetUp
    ensures { prepared setup.slots result live.new cells.new
        ≡ sets_up setup defaults.now (blank_held setup live.old cells.old) }
{
    set_up::set_up(
        setup,
        blank_port(),
        all_down(),
        setup.slots,
        live,
        defaults,
        cells,
    )
}

// Kept: what is lent goes as slices beside set-up and device, and how they fit stands in clauses, since a struct of `&mut` slices needs a clause on its ghost name in each function.
// Set-up, and then the trace in pieces; a set-up that is refused gets none of it.
pub fn run_over(
    setup: Setup,
    live: &mut [u32],
    defaults: &[u32],
    cells: &mut [u32],
    trace: &[u8],
    size: usize,
    answers: &mut [u8],
) -> Fed
    ensures { left setup.slots result live.new cells.new answers.new
        ≡ runs_on setup defaults.now size (blank_held setup live.old cells.old) trace.now answers.old }
{
    let made = set_up_blank(setup, &mut *live, defaults, &mut *cells);
    let port = made.port;
    let statuses = made.statuses;
    if made.number != 0 {
        return all_fed(made.number, 0, 0, port, statuses);
    }
    feed_pieces(
        setup, port, statuses, live, defaults, cells, trace, size, answers,
    )
}

// Kept: what is lent goes as slices beside set-up and device, and how they fit stands in clauses, since a struct of `&mut` slices needs a clause on its ghost name in each function.
// Set-up, and then the capture in one call of a replay that has taken nothing; a set-up that is refused gets none of it.
pub fn replay_over(
    setup: Setup,
    live: &mut [u32],
    defaults: &[u32],
    cells: &mut [u32],
    capture: &[u8],
    answers: &mut [u8],
) -> Fed
    ensures { left setup.slots result live.new cells.new answers.new
        ≡ replays_on setup defaults.now (blank_held setup live.old cells.old) capture.now answers.old }
{
    let made = set_up_blank(setup, &mut *live, defaults, &mut *cells);
    let port = made.port;
    let statuses = made.statuses;
    if made.number != 0 {
        return all_fed(made.number, 0, 0, port, statuses);
    }
    let x = replay::replay(
        setup,
        port,
        statuses,
        setup.slots,
        fresh(),
        no_moments(),
        live,
        defaults,
        cells,
        capture,
        answers,
    );
    let after = x.port;
    let moved = x.statuses;
    all_fed(x.number, x.consumed, x.written, after, moved)
}
