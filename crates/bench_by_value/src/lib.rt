// The public entries for callers that hold a port and an array of statuses by value.
// Kept in this file: what is lent goes as slices beside set-up and device, and how they fit stands in clauses, since a struct of `&mut` slices needs a clause on its ghost name in each function.
#![tactic(auto)]

ghost use Rattle.std.specs.Prelude.{◌≡◌};
ghost use Rattle.demand3.specs.Held.{held};
ghost use Rattle.bench.specs.Entries.{left_by_set_up, left_by_feed, outcome_is};
ghost use Rattle.bench_by_value.specs.First.{sets_up_first, feeds_first};

use feed::Fed;
use readiness::{Setup, Status};
use records::Port;
use set_up::SetUp;

// Set-up with the first n of the statuses, at most all 32.
pub fn set_up_first(
    setup: Setup,
    port: Port,
    statuses: [Status; 32],
    n: usize,
    live: &mut [u32],
    defaults: &[u32],
    cells: &mut [u32],
) -> SetUp
    ensures { left_by_set_up result.number result.port result.statuses live.new cells.new
        ≡ sets_up_first n setup defaults.now (held port statuses live.old cells.old) }
{
    let mut own = port;
    let mut array = statuses;
    let k = n.min(32);
    let number = bench::set_up(setup, &mut own, &mut array[..k], live, defaults, cells);
    SetUp {
        number,
        port: own,
        statuses: array,
    }
}

// Feed with the first n of the statuses, at most all 32.
pub fn feed_first(
    setup: Setup,
    port: Port,
    statuses: [Status; 32],
    n: usize,
    live: &mut [u32],
    defaults: &[u32],
    cells: &mut [u32],
    input: &[u8],
    answers: &mut [u8],
) -> Fed
    ensures { left_by_feed (outcome_is result) result.port result.statuses live.new cells.new answers.new
        ≡ feeds_first n setup defaults.now (held port statuses live.old cells.old) input.now answers.old }
{
    let mut own = port;
    let mut array = statuses;
    let k = n.min(32);
    let outcome = bench::feed(
        setup,
        &mut own,
        &mut array[..k],
        live,
        defaults,
        cells,
        input,
        answers,
    );
    Fed {
        number: outcome.number,
        consumed: outcome.consumed,
        written: outcome.written,
        port: own,
        statuses: array,
    }
}
