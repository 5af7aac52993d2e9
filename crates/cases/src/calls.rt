// What a call of feed or of replay reads, and what it writes.
use crate::input::{BadCase, fill, fill_first, two};
use crate::output::{write_bytes, write_first, write_words};
use crate::state::State;
use state_image::numbers::put_four;
use state_image::state::{image_size, state_bytes};

// A call's room for answers and its input, at most 4,096 bytes each.
#[derive(Clone, Copy)]
pub struct Call<'a> {
    pub room: usize,
    pub input: &'a [u8],
}

pub fn read_call<'a>(rt: &HostRuntime, input: &'a mut [u8; 4096]) -> Result<Call<'a>, BadCase> {
    let mut head = [0u8; 4];
    fill(rt, &mut head)?;
    let room = two(head[0], head[1]);
    if room > 4096 {
        return Err(BadCase);
    }
    let input = fill_first(rt, input, two(head[2], head[3]))?;
    Ok(Call { room, input })
}

// The number and the two counts.
pub fn write_counts(rt: &HostRuntime, number: u8, consumed: usize, written: usize) {
    let mut counts = [number; 9];
    put_four(&mut counts, 1, consumed as u64);
    put_four(&mut counts, 5, written as u64);
    write_bytes(rt, &counts);
}

// After a call: the port and the statuses, the live words and the queue cells.
pub fn write_state(rt: &HostRuntime, state: &State<'_>) {
    let image = state_bytes(state.port, state.statuses);
    write_first(rt, &image, image_size(state.lent));
    write_words(rt, state.live);
    write_words(rt, state.cells);
}
