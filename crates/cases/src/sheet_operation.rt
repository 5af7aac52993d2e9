// The operation on a time sheet, and what it writes.
use crate::input::{BadCase, fill, fill_first, two};
use crate::output::write_bytes;
use crate::state::State;
use readiness::Slot;
use sheet_grammar::SheetRead;
use times::code_number;

// The most bytes of a sheet.
const MOST: usize = 4096;

// The number and the line, then four codes for each of 32 entries.
const WRITTEN: usize = 259;

// The four codes of an entry, two bytes each.
fn codes_of(entry: &Slot) -> [u8; 8] {
    let [a, b] = code_number(entry.reset).to_le_bytes();
    let [c, d] = code_number(entry.dl_up).to_le_bytes();
    let [e, f] = code_number(entry.flr).to_le_bytes();
    let [g, h] = code_number(entry.d3hot).to_le_bytes();
    [a, b, c, d, e, f, g, h]
}

// Those of 32 entries.
fn put_entries(bytes: &mut [u8], entries: &[Slot; 32]) {
    let (places, _) = bytes.as_chunks_mut::<8>();
    for (codes, entry) in places.iter_mut().zip(entries) {
        *codes = codes_of(entry);
    }
}

// What was read is one write.
fn write_read(rt: &HostRuntime, read: &SheetRead) {
    let mut written = [0u8; WRITTEN];
    let line = read.line.to_le_bytes();
    written[0] = read.number;
    written[1..3].copy_from_slice(&line[..2]);
    put_entries(&mut written[3..], &read.setup.entries);
    write_bytes(rt, &written);
}

// 04: a length, at most 4,096, and the sheet. The entries that it leaves are those of the set-up from here on.
pub fn sheet_operation(rt: &HostRuntime, state: &mut State<'_>) -> Result<(), BadCase> {
    let mut head = [0u8; 2];
    let mut room = [0u8; MOST];
    fill(rt, &mut head)?;
    let text = fill_first(rt, &mut room, two(head[0], head[1]))?;
    let read = sheet::read(text, state.setup);
    write_read(rt, &read);
    state.setup = read.setup;
    Ok(())
}
