// What refuses a call before a byte is looked at: the first that applies.
// Kept in this file: the parameters are the entries', a set-up of any number of slots and lent memory; `refusal` answers the papers' number.
ghost use Rattle.std.specs.Prelude.{◌≡◌, List, ℕ, ◌+◌, ◌*◌, ◌≤◌, ◌<◌, length, take};
ghost use Rattle.registers.specs.Rows.{checked_words};
ghost use Rattle.trace.specs.Format.{begun};
ghost use Rattle.trace.specs.Lent.{refusal_or31};
ghost use Rattle.demand3.specs.Refusals.{lengths_fit, queue_fits, codes_allowed, all_codes_allowed, words_allowed, all_defaults_allowed, first_failed, set_up_tests, sound_carried};
ghost use Rattle.demand3.specs.Feeding.{bench};
ghost use Rattle.set_up.specs.Lent.{held_in};
ghost use Rattle.set_up.specs.Refused.{number_in};

use crate::{Refusal, number_in};
use decode::gathering::size_of;
use execute::kinds::kind_of_entry;
use execute::soundness::is_sound;
use readiness::{Setup, Slot};
use records::Port;
use registers::Kind;

// Slots 1 to 32, one status per slot, 64 live and 64 default registers per slot.
#[tactic(auto, unfolding(demand3::specs::Refusals::lengths_fit))]
fn lengths_fit(slots: usize, statuses: usize, live: usize, defaults: usize) -> bool
    ensures { result ≡ lengths_fit slots statuses live defaults }
{
    0 < slots && slots <= 32 && statuses == slots && live == 64 * slots && defaults == 64 * slots
}

// Queue length 1 to 4,095.
#[tactic(auto, unfolding(demand3::specs::Refusals::queue_fits))]
fn queue_fits(cells: usize) -> bool
    ensures { result ≡ queue_fits cells }
{
    0 < cells && cells <= 4095
}

// No code of a slot above A1Eh.
#[tactic(auto, unfolding(demand3::specs::Refusals::codes_allowed))]
fn codes_allowed(entry: Slot) -> bool
    ensures { result ≡ codes_allowed entry }
{
    times::allowed(entry.reset)
        && times::allowed(entry.dl_up)
        && times::allowed(entry.flr)
        && times::allowed(entry.d3hot)
}

// No code of any slot above A1Eh.
fn all_codes_allowed(setup: Setup) -> bool
    requires { setup.slots ≤ 32 }
    ensures { result ≡ all_codes_allowed setup }
{
    for i in 0..setup.slots {
        if !codes_allowed(setup.entries[i]) {
            return false;
        }
    }
    true
}

// A slot's default words that are looked at have none of the bits set that must be 0.
fn words_allowed(kind: Kind, defaults: &[u32], slot: usize) -> bool
    requires { (slot < 32) × (slot * 64 + 64 ≤ length defaults.now) }
    ensures { result ≡ words_allowed kind defaults.now slot (checked_words kind) }
{
    let [first, second] = registers::checked_words(kind);
    registers::default_allowed(kind, first, defaults[slot * 64 + first])
        && registers::default_allowed(kind, second, defaults[slot * 64 + second])
}

// The same for every slot.
fn all_defaults_allowed(setup: Setup, defaults: &[u32]) -> bool
    requires { (setup.slots ≤ 32) × (length defaults.now ≡ 64 * setup.slots) }
    ensures { result ≡ all_defaults_allowed setup defaults.now }
{
    for i in 0..setup.slots {
        if !words_allowed(kind_of_entry(setup.entries[i]), defaults, i) {
            return false;
        }
    }
    true
}

// The first of 1 to 4 that applies.
pub fn set_up_refusal(
    setup: Setup,
    lent: usize,
    live: usize,
    defaults: &[u32],
    cells: usize,
) -> Result<(), Refusal>
    ensures { number_in result ≡ first_failed (set_up_tests setup defaults.now lent live cells) }
{
    if !lengths_fit(setup.slots, lent, live, defaults.len()) {
        return Err(Refusal::Lengths);
    }
    if !queue_fits(cells) {
        return Err(Refusal::Queue);
    }
    if !all_codes_allowed(setup) {
        return Err(Refusal::Codes);
    }
    if !all_defaults_allowed(setup, defaults) {
        return Err(Refusal::Defaults);
    }
    Ok(())
}

// The first n carried bytes, if any, are the start of one incomplete record.
fn begins(carried: [u8; 16], n: usize) -> bool
    requires { n ≤ 16 }
    ensures { result ≡ begun (take n carried) }
{
    n == 0 || n < size_of(carried[0])
}

#[tactic(auto, unfolding(demand3::specs::Refusals::sound_carried))]
pub fn sound_carried(port: Port) -> bool
    ensures { result ≡ sound_carried port }
{
    port.carried_len <= 16 && begins(port.carried, port.carried_len)
}

// The first that applies: 1 to 5, then 31 for a broken trace.
fn check_call(
    setup: Setup,
    port: Port,
    phases: &[u64],
    live: usize,
    defaults: &[u32],
    cells: &[u32],
) -> Result<(), Refusal>
    ensures { (words : List ℕ) → length words ≡ live
        → number_in result ≡ refusal_or31 (bench setup defaults.now) (held_in port phases.now words cells.now) }
{
    set_up_refusal(setup, phases.len() / 4, live, defaults, cells.len())?;
    if !sound_carried(port) {
        return Err(Refusal::Unsound);
    }
    if !is_sound(setup.slots, port.dev, phases, cells) {
        return Err(Refusal::Unsound);
    }
    if port.broken {
        return Err(Refusal::Broken);
    }
    Ok(())
}

// The number of the first that applies, or 0.
pub fn refusal(
    setup: Setup,
    port: Port,
    phases: &[u64],
    live: usize,
    defaults: &[u32],
    cells: &[u32],
) -> u8
    ensures { (words : List ℕ) → length words ≡ live
        → result ≡ refusal_or31 (bench setup defaults.now) (held_in port phases.now words cells.now) }
{
    number_in(check_call(setup, port, phases, live, defaults, cells))
}
