// Set-up by value over the lent slices, and the refusals of a call.
#![tactic(auto)]

pub mod refusing; // the refusals of a call
mod lending; // the queue cells

ghost use Rattle.std.specs.Prelude.{◌≡◌};
ghost use Rattle.demand3.specs.Held.{held, lent_of};
ghost use Rattle.demand3.specs.SettingUp.{sets_up};
ghost use Rattle.set_up.specs.Prepared.{prepared};
ghost use Rattle.set_up.specs.Refused.{number_of, number_in};

use lending::clear_cells;
use readiness::{Setup, Status, blank_dev};
use records::{Port, blank_port};
use refusing::set_up_refusal;

// Why a call is refused before a byte is looked at.
#[derive(Clone, Copy)]
pub enum Refusal {
    // The slots are not 1 to 32, or a lent slice is not as long as they need.
    Lengths,
    // The queue is empty, or longer than 4,095.
    Queue,
    // A slot has a code that is no time.
    Codes,
    // A default word has a bit set that must be 0.
    Defaults,
    // What is lent is no state of the bench.
    Unsound,
    // The trace was broken in an earlier call.
    Broken,
}

impl Refusal {
    // The number that stands for it: 1 to 5, or 31.
    pub fn number(self) -> u8
        ensures { result ≡ number_of self }
    {
        match self {
            Refusal::Lengths => 1,
            Refusal::Queue => 2,
            Refusal::Codes => 3,
            Refusal::Defaults => 4,
            Refusal::Unsound => 5,
            Refusal::Broken => 31,
        }
    }
}

// The number of a call's refusal, 0 where there is none.
pub fn number_in(refused: Result<(), Refusal>) -> u8
    ensures { result ≡ number_in refused }
{
    match refused {
        Ok(()) => 0,
        Err(why) => why.number(),
    }
}

// What set-up gives, beside the lent slices.
// Kept: set-up is an entry, which answers the papers' number.
#[derive(Clone, Copy)]
pub struct SetUp {
    pub number: u8,
    pub port: Port,
    pub statuses: [Status; 32],
}

// Set-up: a refusal changes nothing.
// Kept: an entry, whose parameters are the memory that is lent.
pub fn set_up(
    setup: Setup,
    port: Port,
    statuses: [Status; 32],
    lent: usize,
    live: &mut [u32],
    defaults: &[u32],
    cells: &mut [u32],
) -> SetUp
    ensures { prepared lent result live.new cells.new
        ≡ sets_up setup defaults.now (held port (lent_of lent statuses) live.old cells.old) }
{
    match set_up_refusal(setup, lent, live.len(), defaults, cells.len()) {
        Err(why) => SetUp {
            number: why.number(),
            port,
            statuses,
        },
        Ok(()) => {
            config_words::cold_reset(live, defaults);
            clear_cells(cells);
            SetUp {
                number: 0,
                port: blank_port(),
                statuses: settle::reset_statuses(setup, blank_dev(), statuses),
            }
        }
    }
}
