// What two calls on one lent memory come to, for the caller that made them.
#![tactic(auto)]

ghost use Rattle.std.specs.Prelude.{◌≡◌};

use bench::Outcome;
use readiness::Status;
use records::Port;

// What two calls gave, and the memory after them.
#[derive(Clone, Copy)]
pub struct Both {
    pub first: Outcome,
    pub second: Outcome,
    pub port: Port,
    pub statuses: [Status; 1],
    pub live: [u32; 64],
    pub cells: [u32; 4],
}

// Kept: each becomes a field of the result.
// Both calls and the memory, made one.
pub fn both_with(
    first: Outcome,
    second: Outcome,
    port: Port,
    statuses: [Status; 1],
    live: [u32; 64],
    cells: [u32; 4],
) -> Both
    ensures { result ≡ record { first = first; second = second; port = port; statuses = statuses; live = live; cells = cells } }
{
    Both {
        first,
        second,
        port,
        statuses,
        live,
        cells,
    }
}
