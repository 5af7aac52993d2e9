// Feed by value over the lent slices: each whole record of a call's trace runs in its turn.
// Kept in this file: what is lent goes as slices beside set-up and device, and how they fit stands in clauses, since a struct of `&mut` slices needs a clause on its ghost name in each function.
#![tactic(auto)]

mod choosing; // how a record takes its turn
pub mod closing; // the end of a call
pub mod running; // the records of a call
mod turning; // a record's turn, and its answer

ghost use Rattle.std.specs.Prelude.{◌≡◌, List, ℕ, length};
ghost use Rattle.demand3.specs.Held.{held, lent_of};
ghost use Rattle.demand3.specs.Feeding.{feeds};
ghost use Rattle.set_up.specs.Lent.{held_in};
ghost use Rattle.feed.specs.Left.{left, left_in_place};
ghost use Rattle.feed.specs.inner.Calls.{Opens};

use closing::{carry_on, refused};
use decode::gathering::whole_size;
use frs_queue::Frs;
use readiness::{Setup, Status};
use records::{Port, Request};
use registers::Masks;
use running::run_records;
use set_up::refusing::refusal;
use settle::phases::{in_numbers, in_statuses};
use times::Nanos;

// What feed gives, beside the lent slices.
// Kept: the number is the papers', given with the counts in each case.
#[derive(Clone, Copy)]
pub struct Fed {
    pub number: u8,
    pub consumed: usize,
    pub written: usize,
    pub port: Port,
    pub statuses: [Status; 32],
}

// What feed gives where the statuses are changed in place, beside the lent slices.
// Kept: as in `Fed`.
#[derive(Clone, Copy)]
pub struct FedPort {
    pub number: u8,
    pub consumed: usize,
    pub written: usize,
    pub port: Port,
}

// How a record takes its turn.
#[derive(Clone, Copy)]
pub enum Turn {
    // A configuration read of a slot of the card.
    Read(Request),
    // A configuration write of one, with the value.
    Write(Request, u32),
    // Hardware sets bits of one: the slot, the word and the mask.
    Hardware(usize, usize, u32),
    // The root port alone.
    Port,
    // An FRS arrives at the queue.
    Frs(Frs),
    // The clock moves by so much, and no slot becomes Ready.
    Clock(Nanos),
    // The whole card.
    Card,
}

// How a call begins: the number for which it is refused; else the size of the first record that it completes, if it completes one.
fn opens(
    setup: Setup,
    port: Port,
    phases: &[u64],
    words: usize,
    defaults: &[u32],
    cells: &[u32],
    input: &[u8],
    room: usize,
) -> Result<Option<usize>, u8>
    ensures { (live : List ℕ) → length live ≡ words
        → Opens setup defaults.now (held_in port phases.now live cells.now) input.now room result }
{
    let no = refusal(setup, port, phases, words, defaults, cells);
    if no != 0 {
        return Err(no);
    }
    match whole_size(&port.carried, port.carried_len, input, room) {
        0 => Ok(None),
        size => Ok(Some(size)),
    }
}

// Feed with the table of masks lent, where the statuses are numbers, four to a slot, which are changed in place: a refusal changes nothing.
pub fn feed_lent(
    table: &Masks,
    setup: Setup,
    port: Port,
    phases: &mut [u64],
    live: &mut [u32],
    defaults: &[u32],
    cells: &mut [u32],
    input: &[u8],
    answers: &mut [u8],
) -> FedPort
    ensures { left_in_place result phases.new live.new cells.new answers.new
        ≡ feeds setup defaults.now (held_in port phases.old live.old cells.old) input.now answers.old }
{
    let room = answers.len();
    match opens(
        setup,
        port,
        phases,
        live.len(),
        defaults,
        cells,
        input,
        room,
    ) {
        Ok(Some(size)) => run_records(
            table, setup, port, size, phases, live, defaults, cells, input, answers,
        ),
        Ok(None) => carry_on(port, input),
        Err(number) => refused(number, port),
    }
}

// The same with a copy of the table of its own, which is made only if a record runs.
pub fn feed_in_place(
    setup: Setup,
    port: Port,
    phases: &mut [u64],
    live: &mut [u32],
    defaults: &[u32],
    cells: &mut [u32],
    input: &[u8],
    answers: &mut [u8],
) -> FedPort
    ensures { left_in_place result phases.new live.new cells.new answers.new
        ≡ feeds setup defaults.now (held_in port phases.old live.old cells.old) input.now answers.old }
{
    let room = answers.len();
    match opens(
        setup,
        port,
        phases,
        live.len(),
        defaults,
        cells,
        input,
        room,
    ) {
        Ok(Some(size)) => {
            let table = registers::attributes();
            run_records(
                &table, setup, port, size, phases, live, defaults, cells, input, answers,
            )
        }
        Ok(None) => carry_on(port, input),
        Err(number) => refused(number, port),
    }
}

// Feed: a refusal changes nothing.
pub fn feed(
    setup: Setup,
    port: Port,
    statuses: [Status; 32],
    lent: usize,
    live: &mut [u32],
    defaults: &[u32],
    cells: &mut [u32],
    input: &[u8],
    answers: &mut [u8],
) -> Fed
    ensures { left lent result live.new cells.new answers.new
        ≡ feeds setup defaults.now (held port (lent_of lent statuses) live.old cells.old) input.now answers.old }
{
    if 32 < lent {
        return Fed {
            number: 1,
            consumed: 0,
            written: 0,
            port,
            statuses,
        };
    }
    let mut phases = in_numbers(statuses);
    let end = 4 * lent;
    let fed = feed_in_place(
        setup,
        port,
        &mut phases[0..end],
        live,
        defaults,
        cells,
        input,
        answers,
    );
    Fed {
        number: fed.number,
        consumed: fed.consumed,
        written: fed.written,
        port: fed.port,
        statuses: in_statuses(phases),
    }
}
