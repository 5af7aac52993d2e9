// The public entries: set-up and feed over memory that the caller lends, the port state and the slot statuses with it.
// Kept in this file: what is lent goes as slices beside set-up and device, and how they fit stands in clauses, since a struct of `&mut` slices needs a clause on its ghost name in each function.
#![tactic(auto)]

ghost use Rattle.std.specs.Prelude.{◌≡◌};
ghost use Rattle.demand3.specs.Held.{held};
ghost use Rattle.demand3.specs.SettingUp.{sets_up};
ghost use Rattle.demand3.specs.Feeding.{feeds};
ghost use Rattle.bench.specs.Entries.{left_by_set_up, left_by_feed};

use lent_statuses::{load, store};
use readiness::{Setup, Status};
use records::Port;

// What a call of feed gives: its number, and how many bytes it consumed and wrote.
// Kept: the number is the papers', 0 where nothing is refused, and the entries for C return it.
#[derive(Clone, Copy)]
pub struct Outcome {
    pub number: u8,
    pub consumed: usize,
    pub written: usize,
}

// Set-up: 0, or its refusal, and then nothing changes.
// Kept: the number is the papers', and the entries for C return it.
pub fn set_up(
    setup: Setup,
    port: &mut Port,
    statuses: &mut [Status],
    live: &mut [u32],
    defaults: &[u32],
    cells: &mut [u32],
) -> u8
    ensures { left_by_set_up result port.new statuses.new live.new cells.new
        ≡ sets_up setup defaults.now (held port.old statuses.old live.old cells.old) }
{
    let lent = statuses.len();
    let array = load(statuses);
    let made = set_up::set_up(setup, *port, array, lent, live, defaults, cells);
    *port = made.port;
    store(statuses, made.statuses);
    made.number
}

// Feed: its number and counts; with a refusal nothing changes.
pub fn feed(
    setup: Setup,
    port: &mut Port,
    statuses: &mut [Status],
    live: &mut [u32],
    defaults: &[u32],
    cells: &mut [u32],
    input: &[u8],
    answers: &mut [u8],
) -> Outcome
    ensures { left_by_feed result port.new statuses.new live.new cells.new answers.new
        ≡ feeds setup defaults.now (held port.old statuses.old live.old cells.old) input.now answers.old }
{
    let lent = statuses.len();
    let array = load(statuses);
    let fed = feed::feed(
        setup, *port, array, lent, live, defaults, cells, input, answers,
    );
    *port = fed.port;
    store(statuses, fed.statuses);
    Outcome {
        number: fed.number,
        consumed: fed.consumed,
        written: fed.written,
    }
}
