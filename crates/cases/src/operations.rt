// The operations on what is lent, and what each writes.
use crate::calls::{read_call, write_counts, write_state};
use crate::input::{BadCase, fill_first, read_words};
use crate::output::write_bytes;
use crate::state::State;
use bench_by_value::{feed_first, set_up_first};
use feed::Fed;
use set_up::SetUp;
use state_image::state::{image_size, is_good_image, port_in, statuses_in};

// 01
pub fn set_up_operation(rt: &HostRuntime, state: &mut State<'_>) {
    let SetUp {
        number,
        port,
        statuses,
    } = set_up_first(
        state.setup,
        state.port,
        state.statuses,
        state.lent,
        &mut *state.live,
        state.defaults,
        &mut *state.cells,
    );
    state.port = port;
    state.statuses = statuses;
    write_bytes(rt, &[number]);
    write_state(rt, state);
}

// A call of feed, and what it writes.
fn feed_into(rt: &HostRuntime, state: &mut State<'_>, input: &[u8], room: &mut [u8]) {
    let Fed {
        number,
        consumed,
        written,
        port,
        statuses,
    } = feed_first(
        state.setup,
        state.port,
        state.statuses,
        state.lent,
        &mut *state.live,
        state.defaults,
        &mut *state.cells,
        input,
        &mut *room,
    );
    state.port = port;
    state.statuses = statuses;
    write_counts(rt, number, consumed, written);
    write_bytes(rt, room);
    write_state(rt, state);
}

// 02: every answer byte is EEh before the call.
pub fn feed_operation(rt: &HostRuntime, state: &mut State<'_>) -> Result<(), BadCase> {
    let mut input = [0u8; 4096];
    let mut answers = [0xEEu8; 4096];
    let call = read_call(rt, &mut input)?;
    let room = call.room.min(4096);
    feed_into(rt, state, call.input, &mut answers[..room]);
    Ok(())
}

// 03: a state replaces what is lent.
pub fn lend_operation(rt: &HostRuntime, state: &mut State<'_>) -> Result<(), BadCase> {
    let mut room = [0u8; 910];
    let image = fill_first(rt, &mut room, image_size(state.lent))?;
    if !is_good_image(image) {
        return Err(BadCase);
    }
    state.port = port_in(image);
    state.statuses = statuses_in(image);
    read_words(rt, &mut *state.live)?;
    read_words(rt, &mut *state.cells)
}
