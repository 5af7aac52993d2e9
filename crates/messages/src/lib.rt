// Readiness messages of 16 bytes: DRS and FRS, read and written.
#![tactic(auto)]

ghost use Rattle.std.specs.Prelude.{◌≡◌, get_or};
ghost use Rattle.messages.specs.Messages.{traffic_class, requester_id, frs_reason, subtype_of, layout, frs_allowed, frs_read, read_message, writable, canonical, left, stored, written};

use bits::byte_at;

// A readiness message.
#[derive(Clone, Copy)]
pub enum Message {
    // The requester ID.
    Drs(u16),
    // The requester ID and the reason.
    Frs(u16, u8),
}

// Byte 0 of each kind.
// Kept: a kind is this byte, and 0 or 19 an answer, since `messages::write`, which docs/ describes, is given and gives these numbers.
pub const DRS: u8 = 0x34;

pub const FRS: u8 = 0x30;

// The number for what is no readiness message.
pub const NOT_READINESS: u8 = 19;

// Byte 12 of each kind.
#[tactic(auto, unfolding(crate::specs::Messages::subtype_of))]
fn subtype_of(kind: u8) -> u8
    ensures { result ≡ subtype_of kind }
{
    if kind == DRS { 0x08 } else { 0x09 }
}

// Byte 1 bits 6:4.
fn traffic_class(bytes: &[u8]) -> u8
    ensures { result ≡ traffic_class bytes.now }
{
    byte_at(bytes, 1) / 16 % 8
}

// Bytes 4 and 5, high byte first.
fn requester_id(bytes: &[u8]) -> u16
    ensures { result ≡ requester_id bytes.now }
{
    u16::from_be_bytes([byte_at(bytes, 4), byte_at(bytes, 5)])
}

// Byte 15 bits 3:0.
fn frs_reason(bytes: &[u8]) -> u8
    ensures { result ≡ frs_reason bytes.now }
{
    byte_at(bytes, 15) % 16
}

// Everything that is checked of a message of the kind; the rest is ignored.
#[tactic(auto, unfolding(crate::specs::Messages::layout))]
fn has_layout(kind: u8, bytes: &[u8]) -> bool
    ensures { result ≡ layout kind bytes.now }
{
    bytes.len() == 16
        && byte_at(bytes, 0) == kind
        && traffic_class(bytes) == 0
        && byte_at(bytes, 7) == 0x7F
        && byte_at(bytes, 10) == 0x00
        && byte_at(bytes, 11) == 0x01
        && byte_at(bytes, 12) == subtype_of(kind)
}

// The reasons that an FRS may have.
#[tactic(auto, unfolding(crate::specs::Messages::frs_allowed))]
pub fn frs_allowed(reason: u8) -> bool
    ensures { result ≡ frs_allowed reason }
{
    reason < 16
}

#[tactic(auto, unfolding(crate::specs::Messages::frs_read))]
fn frs_read(id: u16, reason: u8) -> Option<Message>
    ensures { result ≡ frs_read id reason }
{
    if frs_allowed(reason) {
        Some(Message::Frs(id, reason))
    } else {
        None
    }
}

// Reads a message, whatever its length and content; none is a readiness message but a DRS and an FRS.
#[tactic(auto, unfolding(crate::specs::Messages::read_message))]
pub fn read(bytes: &[u8]) -> Option<Message>
    ensures { result ≡ read_message bytes.now }
{
    if has_layout(DRS, bytes) {
        return Some(Message::Drs(requester_id(bytes)));
    }
    if has_layout(FRS, bytes) {
        return frs_read(requester_id(bytes), frs_reason(bytes));
    }
    None
}

// A DRS with reason 0, or an FRS with a reason that it may have.
#[tactic(auto, unfolding(crate::specs::Messages::writable))]
fn is_writable(kind: u8, reason: u8) -> bool
    ensures { result ≡ writable kind reason }
{
    match kind {
        DRS => reason == 0,
        FRS => frs_allowed(reason),
        _ => false,
    }
}

// The 16 bytes of a message.
#[tactic(auto, unfolding(crate::specs::Messages::canonical))]
fn canonical_bytes(kind: u8, id: u16, reason: u8) -> [u8; 16]
    ensures { result ≡ canonical kind id reason }
{
    let [high, low] = id.to_be_bytes();
    let subtype = subtype_of(kind);
    [
        kind, 0, 0, 0, high, low, 0, 0x7F, 0, 0, 0x00, 0x01, subtype, 0, 0, reason,
    ]
}

// Puts 16 bytes into a room of 16.
// Kept: the number is what `messages::write` answers.
#[tactic(auto, unfolding(crate::specs::Messages::stored))]
fn store(bytes: [u8; 16], room: &mut [u8]) -> u8
    ensures { left result room.new ≡ stored bytes room.old }
{
    if room.len() != 16 {
        return NOT_READINESS;
    }
    room.copy_from_slice(&bytes);
    0
}

// Writes a message into a room of 16 bytes and gives 0; else gives 19 and writes nothing.
#[tactic(auto, unfolding(crate::specs::Messages::written))]
pub fn write(kind: u8, id: u16, reason: u8, room: &mut [u8]) -> u8
    ensures { left result room.new ≡ written kind id reason room.old }
{
    if is_writable(kind, reason) {
        store(canonical_bytes(kind, id, reason), room)
    } else {
        NOT_READINESS
    }
}
