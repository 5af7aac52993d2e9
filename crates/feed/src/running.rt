// The records of a call that is not refused, each in its turn.
// Kept in this file: what is lent goes as slices beside set-up and device, and how they fit stands in clauses, since a struct of `&mut` slices needs a clause on its ghost name in each function.
ghost use Rattle.std.specs.Prelude.{◌≡◌, length};
ghost use Rattle.readiness.specs.inner.Phases.{moments_in};
ghost use Rattle.execute.specs.inner.Lent.{state_in};
ghost use Rattle.demand3.specs.Held.{opened};
ghost use Rattle.demand3.specs.Feeding.{feeds};
ghost use Rattle.set_up.specs.Lent.{held_in};
ghost use Rattle.feed.specs.Left.{left_in_place};
ghost use Rattle.feed.specs.inner.Calls.{NotRefused, Completes, NotesRecords};

use crate::choosing::turn_of;
use crate::closing::{after_first, carry_on, nothing_carried};
use crate::turning::{
    card_turn, clock_turn, frs_turn, hardware_turn, port_turn, read_turn, write_turn,
};
use crate::{FedPort, Turn};
use decode::gathering::{first_bytes, next_record, put_answer};
use execute::answering::answer_bytes;
use readiness::{Dev, Setup};
use records::Port;
use registers::Masks;

// A call that is not refused, with nothing carried: each whole record runs in its turn, until the input ends, a kind is unknown or the room is
// too small.
pub fn run_input(
    table: &Masks,
    setup: Setup,
    start: Dev,
    phases: &mut [u64],
    live: &mut [u32],
    defaults: &[u32],
    cells: &mut [u32],
    input: &[u8],
    answers: &mut [u8],
) -> FedPort
    requires not_refused { NotRefused setup defaults.now (held_in (opened start) phases.old live.old cells.old) }
    ensures answers_after { left_in_place result phases.new live.new cells.new answers.new
        ≡ feeds setup defaults.now (held_in (opened start) phases.old live.old cells.old) input.now answers.old }
    ensures notes_records { NotesRecords setup defaults.now (state_in start phases.old live.old cells.old) input.now (length answers.old)
        (moments_in phases.old) (moments_in phases.new) }
{
    let mut dev = start;
    let mut earliest = times::nanos_of(0);
    let mut at = 0;
    let mut w = 0;
    // Kept: how many records the input has is known only once they are read.
    while let Some(found) = next_record(input, at, answers.len() - w) {
        let reply = match turn_of(setup.slots, earliest, dev, found.record) {
            Turn::Read(q) => read_turn(&setup, dev, phases, live, q),
            Turn::Write(q, value) => {
                let moved = write_turn(
                    table, &setup, dev, earliest, phases, live, defaults, cells, q, value,
                );
                dev = moved.dev;
                earliest = moved.earliest;
                moved.reply
            }
            Turn::Hardware(slot, word, mask) => {
                hardware_turn(table, &setup, phases, live, slot, word, mask)
            }
            Turn::Port => {
                let done = port_turn(setup.port_id, dev, found.record, cells);
                dev = done.dev;
                done.reply
            }
            Turn::Frs(frs) => {
                let done = frs_turn(dev, cells, frs);
                dev = done.dev;
                done.reply
            }
            Turn::Clock(by) => {
                let done = clock_turn(dev, by);
                dev = done.dev;
                done.reply
            }
            Turn::Card => {
                let moved = card_turn(
                    table,
                    &setup,
                    dev,
                    phases,
                    found.record,
                    live,
                    defaults,
                    cells,
                );
                dev = moved.dev;
                earliest = moved.earliest;
                moved.reply
            }
        };
        put_answer(answers, w, answer_bytes(reply));
        at += found.size;
        w += 8;
    }
    after_first(at, w, carry_on(nothing_carried(dev), &input[at..]))
}

// A call that is not refused, with bytes carried that begin a record of `size` bytes, which is whole now: that record, and then the rest of the input.
fn run_joined(
    table: &Masks,
    setup: Setup,
    port: Port,
    size: usize,
    phases: &mut [u64],
    live: &mut [u32],
    defaults: &[u32],
    cells: &mut [u32],
    input: &[u8],
    answers: &mut [u8],
) -> FedPort
    requires not_refused { NotRefused setup defaults.now (held_in port phases.old live.old cells.old) }
    requires completes { Completes port input.now (length answers.old) size }
    ensures { left_in_place result phases.new live.new cells.new answers.new
        ≡ feeds setup defaults.now (held_in port phases.old live.old cells.old) input.now answers.old }
{
    let dev = port.dev;
    let carried = port.carried;
    let len = port.carried_len;
    let bytes: [u8; 17] = first_bytes(&carried, len, input, size);
    let missing = size - len;
    let first = run_input(
        table,
        setup,
        dev,
        &mut *phases,
        &mut *live,
        defaults,
        &mut *cells,
        &bytes[0..size],
        &mut answers[0..8],
    );
    let between = first.port;
    if input.len() == missing {
        return FedPort {
            number: 0,
            consumed: missing,
            written: 8,
            port: between,
        };
    }
    let rest = run_input(
        table,
        setup,
        between.dev,
        phases,
        live,
        defaults,
        cells,
        &input[missing..],
        &mut answers[8..],
    );
    after_first(missing, 8, rest)
}

// A call that is not refused and completes a record, of `size` bytes.
pub fn run_records(
    table: &Masks,
    setup: Setup,
    port: Port,
    size: usize,
    phases: &mut [u64],
    live: &mut [u32],
    defaults: &[u32],
    cells: &mut [u32],
    input: &[u8],
    answers: &mut [u8],
) -> FedPort
    requires not_refused { NotRefused setup defaults.now (held_in port phases.old live.old cells.old) }
    requires completes { Completes port input.now (length answers.old) size }
    ensures { left_in_place result phases.new live.new cells.new answers.new
        ≡ feeds setup defaults.now (held_in port phases.old live.old cells.old) input.now answers.old }
{
    if port.carried_len == 0 {
        let dev = port.dev;
        return run_input(
            table, setup, dev, phases, live, defaults, cells, input, answers,
        );
    }
    run_joined(
        table, setup, port, size, phases, live, defaults, cells, input, answers,
    )
}
