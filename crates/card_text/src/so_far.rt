// What lines have named, as a set-up and a queue length, and a refusal with these.
ghost use Rattle.std.specs.Prelude.{◌≡◌};
ghost use Rattle.card_grammar.specs.SoFar.{entries_from, setup_from, refusal};
ghost use Rattle.card_grammar.specs.Card.{nothing_named};

use card_grammar::{CardError, Named, Reason};
use readiness::{Setup, Slot, blank_slot};

pub fn nothing_named() -> Named
    ensures { result ≡ nothing_named }
{
    Named {
        slots: None,
        queue: None,
        bus: None,
        port: None,
        entries: [None; 32],
        words: [None; 2048],
    }
}

// A slot not named has codes 000 and no FRS.
#[tactic(auto, unfolding(card_grammar::specs::SoFar::entries_from))]
pub fn entries_from(entries: &[Option<Slot>; 32]) -> [Slot; 32]
    ensures { result ≡ entries_from entries.now }
{
    entries.map(|entry| entry.unwrap_or(blank_slot()))
}

// The set-up as far as it is named: slots, bus and port are 0 where they aren't.
#[tactic(auto, unfolding(card_grammar::specs::SoFar::setup_from))]
fn setup_from(named: &Named) -> Setup
    ensures { result ≡ setup_from named.now }
{
    Setup {
        slots: named.slots.unwrap_or(0),
        entries: entries_from(&named.entries),
        bus: named.bus.unwrap_or(0),
        port_id: named.port.unwrap_or(0),
    }
}

// A refusal at a line, with what was named before it.
pub fn refusal(line: usize, reason: Reason, named: &Named) -> CardError
    ensures { result ≡ refusal line reason named.now }
{
    CardError {
        line,
        reason,
        setup: setup_from(named),
        queue: named.queue.unwrap_or(0),
    }
}
