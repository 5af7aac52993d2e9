// A caller: a card of one slot, fed in two calls over memory of the caller's own; its result is said by the plain bench alone.
// Kept in this file: what is lent goes as slices beside set-up and device, and how they fit stands in clauses, since a struct of `&mut` slices needs a clause on its ghost name in each function.
#![tactic(auto)]

ghost use Rattle.std.specs.Prelude.{◌≡◌, [], ◌∷◌};
ghost use Rattle.demand3.specs.Held.{held};
ghost use Rattle.demand3.specs.Feeding.{feeds, calls};
ghost use Rattle.bench.specs.Entries.{left_by_feed};
ghost use Rattle.two_calls.specs.Twice.{came, lend, ByPlainBench};

use bench::Outcome;
use bench_by_value::feed_first;
use readiness::{Setup, Status};
use records::Port;
use two_calls::{Both, both_with};

// What one call gave, and the memory after it.
#[derive(Clone, Copy)]
struct Once {
    outcome: Outcome,
    port: Port,
    statuses: [Status; 1],
    live: [u32; 64],
    cells: [u32; 4],
}

// One call of feed: the status stands first in the array of which one is lent.
fn feed_once(
    setup: Setup,
    port: Port,
    statuses: [Status; 1],
    live: [u32; 64],
    cells: [u32; 4],
    defaults: &[u32],
    input: &[u8],
    answers: &mut [u8],
) -> Once
    ensures { left_by_feed result.outcome result.port result.statuses result.live result.cells answers.new
        ≡ feeds setup defaults.now (held port statuses live cells) input.now answers.old }
{
    let mut l = live;
    let mut c = cells;
    let array = [statuses[0]; 32];
    let fed = feed_first(
        setup, port, array, 1, &mut l, defaults, &mut c, input, answers,
    );
    Once {
        outcome: Outcome {
            number: fed.number,
            consumed: fed.consumed,
            written: fed.written,
        },
        port: fed.port,
        statuses: [fed.statuses[0]],
        live: l,
        cells: c,
    }
}

// Two calls of feed, the second on what the first left.
fn feed_twice(
    setup: Setup,
    port: Port,
    statuses: [Status; 1],
    live: [u32; 64],
    cells: [u32; 4],
    defaults: &[u32],
    first: &[u8],
    second: &[u8],
    first_answers: &mut [u8],
    second_answers: &mut [u8],
) -> Both
    ensures { came result first.now second.now first_answers.new second_answers.new
        ≡ calls setup defaults.now (held port statuses live cells)
        (lend first.now first_answers.old ∷ lend second.now second_answers.old ∷ []) }
{
    let one = feed_once(
        setup,
        port,
        statuses,
        live,
        cells,
        defaults,
        first,
        first_answers,
    );
    let two = feed_once(
        setup,
        one.port,
        one.statuses,
        one.live,
        one.cells,
        defaults,
        second,
        second_answers,
    );
    both_with(
        one.outcome,
        two.outcome,
        two.port,
        two.statuses,
        two.live,
        two.cells,
    )
}

// The same, said by the plain bench.
pub fn twice(
    setup: Setup,
    port: Port,
    statuses: [Status; 1],
    live: [u32; 64],
    cells: [u32; 4],
    defaults: &[u32],
    first: &[u8],
    second: &[u8],
    first_answers: &mut [u8],
    second_answers: &mut [u8],
) -> Both
    ensures { ByPlainBench setup defaults.now (held port statuses live cells)
        (came result first.now second.now first_answers.new second_answers.new) }
{
    feed_twice(
        setup,
        port,
        statuses,
        live,
        cells,
        defaults,
        first,
        second,
        first_answers,
        second_answers,
    )
}
