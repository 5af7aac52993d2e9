// A file of seen times, line by line.
ghost use Rattle.std.specs.Prelude.{◌≡◌, ◌<◌};
ghost use Rattle.seen_grammar.specs.Reading.{is_slot, is_named, is_too_long, refusal_of, with_time, refuses, seen_of};

use crate::layout::{line_after, line_of};
use readiness::{Moments, no_moments};
use seen_grammar::{NoLine, SeenLine, SeenRead, SeenRefusal};
use times::{ClaimedTime, claimed_nanos, nanos_number};

// No seen time is longer.
const LONGEST_SEEN: u64 = 2000000000000000;

// ---- Refusals

// Kept: `sheet` has the same three tests over lines and limits of its own; each is one line here and there.
// Whether the card has the slot.
#[tactic(auto, unfolding(seen_grammar::specs::Reading::is_slot))]
fn is_slot(slots: usize, slot: u64) -> bool
    ensures { result ≡ is_slot slots slot }
{
    slot < slots as u64 && slot < 32
}

// Whether the slot was named before.
fn is_named(named: [bool; 32], slot: u64) -> bool
    ensures { result ≡ is_named named slot }
{
    if slot < 32 {
        named[slot as usize]
    } else {
        false
    }
}

fn is_too_long(c: ClaimedTime) -> bool
    ensures { result ≡ is_too_long c }
{
    LONGEST_SEEN < nanos_number(claimed_nanos(c))
}

// The line, or the first refusal that applies to it.
#[tactic(auto, unfolding(seen_grammar::specs::Reading::refusal_of))]
fn refusal_of(
    slots: usize,
    named: [bool; 32],
    l: Result<SeenLine, NoLine>,
) -> Result<SeenLine, SeenRefusal>
    ensures { result ≡ refusal_of slots named l }
{
    let Ok(l) = l else {
        return Err(SeenRefusal::Layout);
    };
    if !is_slot(slots, l.slot) {
        Err(SeenRefusal::NoSlot)
    } else if is_named(named, l.slot) {
        Err(SeenRefusal::NamedBefore)
    } else if is_too_long(l.time) {
        Err(SeenRefusal::TooLong)
    } else {
        Ok(l)
    }
}

// ---- Times

// The seen times with that of a line.
#[tactic(auto, unfolding(seen_grammar::specs::Reading::with_time))]
fn with_time(l: SeenLine, m: Moments) -> Moments
    requires { l.slot < 32 }
    ensures { result ≡ with_time l m }
{
    let mut times = m;
    times.note(l.slot as usize, claimed_nanos(l.time));
    times
}

// ---- Files

fn refused(why: SeenRefusal, line: usize) -> SeenRead
    ensures { result ≡ refuses why line }
{
    SeenRead {
        refusal: why,
        line: line,
        times: no_moments(),
    }
}

// What a file gives for a card of so many slots: the seen times, or why it is refused and its earliest bad line.
pub fn read(text: &[u8], slots: usize) -> SeenRead
    ensures { result ≡ seen_of text.now slots }
{
    let mut times = no_moments();
    let mut named = [false; 32];
    let mut at: usize = 0;
    let mut count: usize = 0;
    let len = text.len();
    // Kept: each turn reads on from where the last line ended, so no range or slice gives the places.
    while at < len {
        let end = line_after(text, at);
        count += 1;
        match refusal_of(slots, named, line_of(&text[at..end])) {
            Err(why) => return refused(why, count),
            Ok(l) => {
                times = with_time(l, times);
                named[l.slot as usize] = true;
                at = end;
            }
        }
    }
    SeenRead {
        refusal: SeenRefusal::NoRefusal,
        line: 0,
        times: times,
    }
}
