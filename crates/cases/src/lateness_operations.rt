// The operations of the lateness report, and what each writes.
use crate::input::{BadCase, fill, fill_first, two};
use crate::output::write_bytes;
use crate::state::State;
use lateness::{Report, bench_time, number_of, of_slot, totals, value_of};
use replay_image::moments::{MOMENTS_IMAGE, are_good_moments, moments_in};

// The most differences in a list.
const MOST: usize = 9100;

// Their bytes.
const BYTES: usize = 72800;

// Number, three counts, least, greatest and sum.
const WRITTEN: usize = 37;

// 08: the seen times of 32 slots. For each slot a number and the difference is written.
pub fn lateness_operation(rt: &HostRuntime, state: &State<'_>) -> Result<(), BadCase> {
    let mut image = [0u8; MOMENTS_IMAGE];
    let mut written = [0u8; MOMENTS_IMAGE];
    fill(rt, &mut image)?;
    if !are_good_moments(&image) {
        return Err(BadCase);
    }
    let seen = moments_in(&image);
    for (slot, bytes) in written.chunks_exact_mut(9).enumerate() {
        let when = bench_time(32, seen, slot);
        let late = of_slot(state.setup.slots, state.moments, slot, when);
        bytes[0] = number_of(late);
        bytes[1..].copy_from_slice(&value_of(late).to_le_bytes());
    }
    write_bytes(rt, &written);
    Ok(())
}

// Each in four bytes.
fn put_counts(bytes: &mut [u8], counts: [u32; 3]) {
    for (four, count) in bytes.chunks_exact_mut(4).zip(counts) {
        four.copy_from_slice(&count.to_le_bytes());
    }
}

// Each in eight bytes.
fn put_values(bytes: &mut [u8], values: [i64; 3]) {
    for (eight, value) in bytes.chunks_exact_mut(8).zip(values) {
        eight.copy_from_slice(&value.to_le_bytes());
    }
}

// The number, the counts and the values.
fn put_report(bytes: &mut [u8; WRITTEN], r: Report) {
    bytes[0] = r.number;
    put_counts(&mut bytes[1..13], [r.early, r.on_time, r.late]);
    put_values(&mut bytes[13..], [r.least, r.greatest, r.sum]);
}

// A report is one write.
fn write_report(rt: &HostRuntime, r: Report) {
    let mut written = [0u8; WRITTEN];
    put_report(&mut written, r);
    write_bytes(rt, &written);
}

// 09: a count, at most 9,100, and as many differences.
pub fn totals_operation(rt: &HostRuntime) -> Result<(), BadCase> {
    let mut head = [0u8; 2];
    let mut room = [0u8; BYTES];
    let mut list = [0i64; MOST];
    fill(rt, &mut head)?;
    let n = two(head[0], head[1]);
    let bytes = fill_first(rt, &mut room, 8 * n)?;
    let (differences, _) = bytes.as_chunks::<8>();
    for (value, bytes) in list.iter_mut().zip(differences) {
        *value = i64::from_le_bytes(*bytes);
    }
    write_report(rt, totals(&list[..n.min(MOST)]));
    Ok(())
}
