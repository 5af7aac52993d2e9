// The operations on a replay, and what each writes.
use crate::calls::{read_call, write_counts, write_state};
use crate::input::{BadCase, fill};
use crate::output::write_bytes;
use crate::state::State;
use replay::{Replayed, replay};
use replay_image::moments::{MOMENTS_IMAGE, are_good_moments, moments_in, put_moments};
use replay_image::{REPLAY_IMAGE, is_good_image, put_replay, replay_in};

fn write_replay(rt: &HostRuntime, state: &State<'_>) {
    let mut image = [0u8; REPLAY_IMAGE];
    let mut kept = [0u8; MOMENTS_IMAGE];
    put_replay(&mut image, state.replay);
    put_moments(&mut kept, state.moments);
    write_bytes(rt, &image);
    write_bytes(rt, &kept);
}

// A call of replay, and what it writes.
fn replay_into(rt: &HostRuntime, state: &mut State<'_>, input: &[u8], room: &mut [u8]) {
    let replayed = replay(
        state.setup,
        state.port,
        state.statuses,
        state.lent,
        state.replay,
        state.moments,
        &mut *state.live,
        state.defaults,
        &mut *state.cells,
        input,
        &mut *room,
    );
    write_counts(rt, replayed.number, replayed.consumed, replayed.written);
    write_bytes(rt, room);
    take_replayed(state, replayed);
    write_state(rt, state);
    write_replay(rt, state);
}

// 06: every answer byte is EEh before the call.
pub fn replay_operation(rt: &HostRuntime, state: &mut State<'_>) -> Result<(), BadCase> {
    let mut input = [0u8; 4096];
    let mut answers = [0xEEu8; 4096];
    let call = read_call(rt, &mut input)?;
    let room = call.room.min(4096);
    replay_into(rt, state, call.input, &mut answers[..room]);
    Ok(())
}

fn take_replayed(state: &mut State<'_>, replayed: Replayed) {
    let Replayed {
        port,
        statuses,
        replay,
        moments,
        ..
    } = replayed;
    state.port = port;
    state.statuses = statuses;
    state.replay = replay;
    state.moments = moments;
}

// 07: a state of a replay replaces this one.
pub fn lend_replay_operation(rt: &HostRuntime, state: &mut State<'_>) -> Result<(), BadCase> {
    let mut image = [0u8; REPLAY_IMAGE];
    let mut kept = [0u8; MOMENTS_IMAGE];
    fill(rt, &mut image)?;
    fill(rt, &mut kept)?;
    if !is_good_image(&image) || !are_good_moments(&kept) {
        return Err(BadCase);
    }
    state.replay = replay_in(&image);
    state.moments = moments_in(&kept);
    Ok(())
}
