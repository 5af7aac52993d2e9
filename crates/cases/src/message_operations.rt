// The operations on a single message, and what each writes.
use crate::input::{BadCase, fill, fill_first, next_byte};
use crate::output::write_bytes;
use messages::Message;

// The most bytes of a message, and of a room for one.
const MOST: usize = 40;

// 0D: kind, ID, reason and the length of the room, at most 40, whose every byte is EEh before.
pub fn write_operation(rt: &HostRuntime) -> Result<(), BadCase> {
    let mut body = [0u8; 5];
    let mut bytes = [0xEEu8; MOST];
    fill(rt, &mut body)?;
    let [kind, low, high, reason, n] = body;
    let room = bytes.get_mut(..usize::from(n)).ok_or(BadCase)?;
    let id = u16::from_le_bytes([low, high]);
    let number = messages::write(kind, id, reason, &mut *room);
    write_bytes(rt, &[number]);
    write_bytes(rt, room);
    Ok(())
}

// Number, kind, ID and reason.
fn fields(number: u8, kind: u8, id: u16, reason: u8) -> [u8; 5] {
    let [low, high] = id.to_le_bytes();
    [number, kind, low, high, reason]
}

fn fields_of(message: Option<Message>) -> [u8; 5] {
    match message {
        Some(Message::Drs(id)) => fields(0, messages::DRS, id, 0),
        Some(Message::Frs(id, reason)) => fields(0, messages::FRS, id, reason),
        None => fields(messages::NOT_READINESS, 0, 0, 0),
    }
}

// 0E: a length, at most 40, and as many bytes.
pub fn read_operation(rt: &HostRuntime) -> Result<(), BadCase> {
    let mut room = [0u8; MOST];
    let n = next_byte(rt).ok_or(BadCase)?;
    let bytes = fill_first(rt, &mut room, usize::from(n))?;
    write_bytes(rt, &fields_of(messages::read(bytes)));
    Ok(())
}
