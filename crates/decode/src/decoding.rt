// A record from its bytes, read where they stand: one byte of kind, then a body; numbers low byte first.
ghost use Rattle.std.specs.Prelude.{◌≡◌, ◌+◌, ◌≤◌, ◌<◌, length, get_or, take, drop};
ghost use Rattle.trace.specs.Format.{size_of};
ghost use Rattle.messages.specs.Messages.{read_message};
ghost use Rattle.records.specs.Decode.{four, decode as decoded};

use messages::Message;
use records::{Record, Request};

// Kept: how many bytes must be there differs by the field that is read.
// Four bytes from byte j on, all of which are there.
fn four_in(input: &[u8], j: usize) -> u32
    requires { j + 4 ≤ length input.now }
    ensures { result ≡ four input.now j }
{
    u32::from_le_bytes([input[j], input[j + 1], input[j + 2], input[j + 3]])
}

// Slot, word, enables, after the byte of kind at `at`.
fn request_at(input: &[u8], at: usize) -> Request
    requires { at + 4 ≤ length input.now }
    ensures { result ≡ record { slot = get_or input.now (at + 1) 0; word = get_or input.now (at + 2) 0; enables = get_or input.now (at + 3) 0 } }
{
    Request {
        slot: usize::from(input[at + 1]),
        word: usize::from(input[at + 2]),
        enables: input[at + 3],
    }
}

// The 16 bytes of a message, after the byte of kind at `at`.
fn message_at(input: &[u8], at: usize) -> Option<Message>
    requires { at + 17 ≤ length input.now }
    ensures { result ≡ read_message (take 16 (drop (at + 1) input.now)) }
{
    messages::read(&input[at + 1..at + 17])
}

// The record at `at`, by its kind; all its bytes are there.
#[inline(always)]
pub fn decode_at(input: &[u8], at: usize) -> Record
    requires { (at < length input.now) × (at + size_of (get_or input.now at 0) ≤ length input.now) }
    ensures { result ≡ decoded (drop at input.now) }
{
    // Kept: the byte of kind, as the papers number it.
    match input[at] {
        0x01 => Record::Advance(times::nanos_of(u64::from(four_in(input, at + 1)))),
        0x02 => Record::Read(request_at(input, at)),
        0x03 => Record::Write(request_at(input, at), four_in(input, at + 4)),
        0x04 => Record::Message(message_at(input, at)),
        0x05 => Record::LinkUp,
        0x06 => Record::LinkDown,
        0x07 => Record::ColdReset,
        0x08 => Record::ReadQueue,
        0x09 => Record::RemoveOldest,
        0x0A => Record::ClearBits(input[at + 1]),
        0x0B => Record::Control(input[at + 1]),
        0x0C => Record::HardwareSet(
            usize::from(input[at + 1]),
            usize::from(input[at + 2]),
            four_in(input, at + 3),
        ),
        0x0D => Record::ReadBits,
        _ => Record::NoKind,
    }
}

// The record in these bytes; those past its end are not looked at.
pub fn decode(bytes: [u8; 17]) -> Record
    ensures { result ≡ decoded bytes }
{
    decode_at(&bytes, 0)
}
