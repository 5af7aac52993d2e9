// Replay of captures, by value over the lent slices: a stretch of the capture is written out as the trace that it stands for, and its records run
// in their turn.
// Kept in this file: `replay`, which README names, and `replay_in_place` take what is lent as slices beside set-up and device, and give the papers' numbers.
#![tactic(auto)]

mod running; // the entries of a call
mod stepping; // an advance or a record that stands next
mod stretching; // what stands next in a call
mod writing; // entries, written out

ghost use Rattle.std.specs.Prelude.{◌≡◌, List, ℕ, length};
ghost use Rattle.capture.specs.Lent.{stops_first};
ghost use Rattle.demand3.specs.Held.{held, lent_of};
ghost use Rattle.demand3.specs.Feeding.{bench};
ghost use Rattle.set_up.specs.Lent.{held_in};
ghost use Rattle.readiness.specs.MadeReady.{moments_of};
ghost use Rattle.replay_rules.specs.Replaying.{held_with, replays};
ghost use Rattle.replay_rules.specs.KeepingMoments.{held_noting, replays_noting};
ghost use Rattle.replay.specs.Left.{left, left_in_place, left_kept, left_kept_in_place};

use capture::Replay;
use readiness::{Moments, Setup, Status};
use records::Port;
use replay_state::Due;
use replay_state::matching::matches;
use replay_state::stamps::tidy;
use running::run_capture;
use set_up::refusing::refusal;
use settle::moments::{forget, gathered};
use settle::phases::{in_numbers, in_statuses};
use ticks::Stamp;
use times::Nanos;

// What replay gives, beside the lent slices.
// Kept: README's entries answer these numbers.
#[derive(Clone, Copy)]
pub struct Replayed {
    pub number: u8,
    pub consumed: usize,
    pub written: usize,
    pub port: Port,
    pub statuses: [Status; 32],
    pub replay: Replay,
    pub moments: Moments,
}

// What replay gives where the statuses are changed in place, beside the lent slices.
// Kept: README's entries answer these numbers.
#[derive(Clone, Copy)]
pub struct ReplayedInPlace {
    pub number: u8,
    pub consumed: usize,
    pub written: usize,
    pub port: Port,
    pub replay: Replay,
    pub moments: Moments,
}

// What the entries of a call give, beside the lent slices.
// Kept: the number is the one that replay gives, which README's entries answer.
#[derive(Clone, Copy)]
pub struct ReplayedPort {
    pub number: u8,
    pub consumed: usize,
    pub written: usize,
    pub port: Port,
    pub replay: Replay,
}

// An advance that is due, or a record of so many bytes.
#[derive(Clone, Copy)]
pub enum Run {
    Advance(Nanos),
    Record(usize),
}

// What stands next, between records: what runs, the state of the replay after it, and how far the input is consumed then.
#[derive(Clone, Copy)]
pub struct Step {
    pub run: Run,
    pub replay: Replay,
    pub at: usize,
}

// Kept: the number is the one that replay gives, which README's entries answer.
// A call's end: its number, where 0 leaves it to the bytes that are left, the state of the replay, and how far the input is consumed.
#[derive(Clone, Copy)]
pub struct End {
    pub number: u8,
    pub replay: Replay,
    pub at: usize,
}

// Records, written out: how many bytes they have as a trace and in answers, the state of the replay after them, and how far the input is consumed then.
#[derive(Clone, Copy)]
pub struct Stretch {
    pub len: usize,
    pub answers: usize,
    pub replay: Replay,
    pub at: usize,
}

// An entry that can be written out: the size of its record, its stamp and the advances before it.
#[derive(Clone, Copy)]
pub struct Entry {
    pub size: usize,
    pub stamp: Stamp,
    pub due: Due,
}

// The number that is given before a byte is looked at, or 0: 1 to 5, an ended replay's number, 31.
// Kept: replay gives these numbers as they are, an ended replay's among them.
fn stops(
    setup: Setup,
    port: Port,
    phases: &[u64],
    words: usize,
    defaults: &[u32],
    cells: &[u32],
    state: Replay,
) -> u8
    ensures { (live : List ℕ) → length live ≡ words
        → result ≡ stops_first (bench setup defaults.now) (held_with (held_in port phases.now live cells.now) state) }
{
    let no = refusal(setup, port, phases, words, defaults, cells);
    if no != 0 && no != 31 {
        return no;
    }
    if !matches(port.carried, port.carried_len, state) {
        return 5;
    }
    if state.ended != 0 {
        return state.ended;
    }
    no
}

// Replay where the statuses are numbers, four to a slot, which are changed in place: a refusal changes nothing.
pub fn replay_in_place(
    setup: Setup,
    port: Port,
    phases: &mut [u64],
    state: Replay,
    moments: Moments,
    live: &mut [u32],
    defaults: &[u32],
    cells: &mut [u32],
    input: &[u8],
    answers: &mut [u8],
) -> ReplayedInPlace
    ensures answers_after { left_in_place result phases.new live.new cells.new answers.new
        ≡ replays setup defaults.now (held_with (held_in port phases.old live.old cells.old) state) input.now answers.old }
    ensures answers_after_2 { left_kept_in_place result phases.new live.new cells.new answers.new
        ≡ replays_noting setup defaults.now (held_noting (held_in port phases.old live.old cells.old) (moments_of moments) state) input.now answers.old }
{
    let number = stops(setup, port, phases, live.len(), defaults, cells, state);
    if number != 0 {
        return ReplayedInPlace {
            number,
            consumed: 0,
            written: 0,
            port,
            replay: state,
            moments,
        };
    }
    let table = registers::attributes();
    forget(&mut *phases);
    let x = run_capture(
        &table,
        setup,
        port,
        tidy(state),
        &mut *phases,
        live,
        defaults,
        cells,
        input,
        answers,
    );
    ReplayedInPlace {
        number: x.number,
        consumed: x.consumed,
        written: x.written,
        port: x.port,
        replay: x.replay,
        moments: gathered(moments, phases),
    }
}

// REPLAY, which keeps the moments at which it makes slots Ready: a refusal changes nothing.
pub fn replay(
    setup: Setup,
    port: Port,
    statuses: [Status; 32],
    lent: usize,
    state: Replay,
    moments: Moments,
    live: &mut [u32],
    defaults: &[u32],
    cells: &mut [u32],
    input: &[u8],
    answers: &mut [u8],
) -> Replayed
    ensures answers_after { left lent result live.new cells.new answers.new
        ≡ replays setup defaults.now (held_with (held port (lent_of lent statuses) live.old cells.old) state) input.now answers.old }
    ensures answers_after_2 { left_kept lent result live.new cells.new answers.new
        ≡ replays_noting setup defaults.now (held_noting (held port (lent_of lent statuses) live.old cells.old) (moments_of moments) state) input.now answers.old }
{
    if 32 < lent {
        return Replayed {
            number: 1,
            consumed: 0,
            written: 0,
            port,
            statuses,
            replay: state,
            moments,
        };
    }
    let mut phases = in_numbers(statuses);
    let end = 4 * lent;
    let x = replay_in_place(
        setup,
        port,
        &mut phases[0..end],
        state,
        moments,
        live,
        defaults,
        cells,
        input,
        answers,
    );
    Replayed {
        number: x.number,
        consumed: x.consumed,
        written: x.written,
        port: x.port,
        statuses: in_statuses(phases),
        replay: x.replay,
        moments: x.moments,
    }
}
