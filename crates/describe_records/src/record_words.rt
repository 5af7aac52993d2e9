// A record in words, and a readiness message.
// Kept in this file: matches on numbers, since signallings and reasons are the papers' numbers.
#![tactic(auto, using(text_line::proofs::Putting::putting), unfolding(text_line::specs::Text::text_if, crate::specs::Records::id_text, crate::specs::Records::word_text, crate::specs::Records::offset_of, crate::specs::Records::offset_text, crate::specs::Records::place_text, crate::specs::Records::enables_text, crate::specs::Records::switch_text, crate::specs::Records::signalling_meaning, crate::specs::Records::signalling_text, crate::specs::Records::reason_meaning, crate::specs::Records::frs_text, crate::specs::Records::drs_text, crate::specs::Records::message_text, crate::specs::Records::advance_text, crate::specs::Records::request_text, crate::specs::Records::write_text, crate::specs::Records::message_record_text, crate::specs::Records::listed_text, crate::specs::Records::bits_text, crate::specs::Records::clear_text, crate::specs::Records::control_text, crate::specs::Records::hardware_text, crate::specs::Records::kind_of, crate::specs::Records::record_text))]

ghost use Rattle.std.specs.Prelude.{◌≡◌};
ghost use Rattle.text_line.specs.Page.{put};
ghost use Rattle.describe_records.specs.Records.{id_text, word_text, offset_of, offset_text, place_text, enables_text, switch_text, signalling_meaning, signalling_text, reason_meaning, frs_text, drs_text, message_text, advance_text, request_text, write_text, message_record_text, listed_text, bits_text, clear_text, control_text, hardware_text, kind_of, record_text};

use messages::Message;
use records::{Record, Request};
use text_line::Page;

// ---- Parts

// A number of four hex digits, as an ID has.
pub fn put_id(page: &mut Page<'_>, id: u16)
    ensures { page.new ≡ put (id_text id) page.old }
{
    page.put_hex(4, id as u64);
    page.put_text(b"h");
}

// A register's value.
pub fn put_word(page: &mut Page<'_>, word: u32)
    ensures { page.new ≡ put (word_text word) page.old }
{
    page.put_hex(8, word as u64);
    page.put_text(b"h");
}

// The byte offset of a word; no record names a word above 255.
fn offset_of(word: usize) -> u64
    ensures { result ≡ offset_of word }
{
    if word < 256 { (word * 4) as u64 } else { 1024 }
}

// An offset, in two hex digits, or three where two are too few.
fn put_offset(page: &mut Page<'_>, offset: u64)
    ensures { page.new ≡ put (offset_text offset) page.old }
{
    if offset < 256 {
        page.put_hex(2, offset);
    } else {
        page.put_hex(3, offset);
    }
}

// Slot and offset.
fn put_place(page: &mut Page<'_>, slot: usize, word: usize)
    ensures { page.new ≡ put (place_text slot word) page.old }
{
    page.put_named(b" slot ", slot as u64);
    page.put_text(b" offset ");
    put_offset(page, offset_of(word));
    page.put_text(b"h");
}

// The byte enables, in one hex digit, or two where one is too few.
fn put_enables(page: &mut Page<'_>, enables: u8)
    ensures { page.new ≡ put (enables_text enables) page.old }
{
    if enables < 16 {
        page.put_hex(1, enables as u64);
    } else {
        page.put_hex(2, enables as u64);
    }
}

// A name, and on or off.
pub fn put_switch(page: &mut Page<'_>, name: &[u8], on: bool)
    ensures { page.new ≡ put (switch_text name.now on) page.old }
{
    page.put_text(name);
    page.put_either(on, b"on", b"off");
}

// What a DRS signalling means: with 1 the DRS interrupt is raised, with 2 an FRS arrives.
fn put_signalling_meaning(page: &mut Page<'_>, signalling: u8)
    ensures { page.new ≡ put (signalling_meaning signalling) page.old }
{
    match signalling {
        0 => page.put_text(b" (none)"),
        1 => page.put_text(b" (interrupt)"),
        2 => page.put_text(b" (FRS)"),
        _ => page.put_text(b" (not allowed)"),
    }
}

// DRS signalling, and what it means.
pub fn put_signalling(page: &mut Page<'_>, signalling: u8)
    ensures { page.new ≡ put (signalling_text signalling) page.old }
{
    page.put_named(b", DRS signalling ", signalling as u64);
    put_signalling_meaning(page, signalling);
}

// ---- Messages

// What an FRS reason means.
fn put_reason_meaning(page: &mut Page<'_>, reason: u8)
    ensures { page.new ≡ put (reason_meaning reason) page.old }
{
    match reason {
        1 => page.put_text(b" (DRS received)"),
        2 => page.put_text(b" (D3hot to D0)"),
        3 => page.put_text(b" (FLR completed)"),
        8 => page.put_text(b" (VF enabled)"),
        9 => page.put_text(b" (VF disabled)"),
        _ => page.put_text(b" (reserved)"),
    }
}

// An FRS: the requester ID and the reason.
pub fn put_frs(page: &mut Page<'_>, id: u16, reason: u8)
    ensures { page.new ≡ put (frs_text id reason) page.old }
{
    page.put_text(b"FRS from ");
    put_id(page, id);
    page.put_named(b", reason ", reason as u64);
    put_reason_meaning(page, reason);
}

// A DRS: the requester ID.
pub fn put_drs(page: &mut Page<'_>, id: u16)
    ensures { page.new ≡ put (drs_text id) page.old }
{
    page.put_text(b"DRS from ");
    put_id(page, id);
}

pub fn put_message(page: &mut Page<'_>, message: Option<Message>)
    ensures { page.new ≡ put (message_text message) page.old }
{
    match message {
        Some(Message::Drs(id)) => put_drs(page, id),
        Some(Message::Frs(id, reason)) => put_frs(page, id, reason),
        None => page.put_text(b"no readiness message"),
    }
}

// ---- Records

fn put_advance(page: &mut Page<'_>, by: u64)
    ensures { page.new ≡ put (advance_text by) page.old }
{
    page.put_named(b"advance clock by ", by);
    page.put_text(b" ns");
}

// A configuration request: its name, slot, offset and byte enables.
fn put_request(page: &mut Page<'_>, name: &[u8], request: Request)
    ensures { page.new ≡ put (request_text name.now request) page.old }
{
    page.put_text(name);
    put_place(page, request.slot, request.word);
    page.put_text(b" enables ");
    put_enables(page, request.enables);
    page.put_text(b"h");
}

fn put_write(page: &mut Page<'_>, request: Request, data: u32)
    ensures { page.new ≡ put (write_text request «data») page.old }
{
    put_request(page, b"configuration write", request);
    page.put_text(b" data ");
    put_word(page, data);
}

fn put_message_record(page: &mut Page<'_>, message: Option<Message>)
    ensures { page.new ≡ put (message_record_text message) page.old }
{
    page.put_text(b"message: ");
    put_message(page, message);
}

// A name of a list, where it applies; `later` where another stands before it.
pub fn put_listed(page: &mut Page<'_>, later: bool, applies: bool, name: &[u8])
    ensures { page.new ≡ put (listed_text later applies name.now) page.old }
{
    if applies {
        page.put_either(later, b", ", b" ");
        page.put_text(name);
    }
}

// The status bits by name, numbered as in record 0A.
pub fn put_bits(page: &mut Page<'_>, bits: u8)
    ensures { page.new ≡ put (bits_text bits) page.old }
{
    let received = bits % 2 == 1;
    let overflow = bits / 2 % 2 == 1;
    put_listed(page, false, received, b"Received");
    put_listed(page, received, overflow, b"Overflow");
    put_listed(
        page,
        received | overflow,
        bits / 4 % 2 == 1,
        b"DRS Received",
    );
    page.put_if(bits % 8 == 0, b" none");
}

fn put_clear(page: &mut Page<'_>, bits: u8)
    ensures { page.new ≡ put (clear_text bits) page.old }
{
    page.put_text(b"clear status bits:");
    put_bits(page, bits);
}

// The control byte.
fn put_control(page: &mut Page<'_>, control: u8)
    ensures { page.new ≡ put (control_text control) page.old }
{
    page.put_text(b"control ");
    page.put_hex(2, control as u64);
    put_switch(page, b"h: CRS visibility ", control % 2 == 1);
    put_switch(page, b", FRS interrupt ", control / 2 % 2 == 1);
    put_signalling(page, control / 4 % 4);
}

fn put_hardware(page: &mut Page<'_>, slot: usize, word: usize, mask: u32)
    ensures { page.new ≡ put (hardware_text slot word mask) page.old }
{
    page.put_text(b"hardware sets bits:");
    put_place(page, slot, word);
    page.put_text(b" mask ");
    put_word(page, mask);
}

// The kind of a record; 0 for none.
pub fn kind_of(item: Record) -> u8
    ensures { result ≡ kind_of item }
{
    match item {
        Record::Advance(by) => 0x01,
        Record::Read(request) => 0x02,
        Record::Write(request, data) => 0x03,
        Record::Message(message) => 0x04,
        Record::LinkUp => 0x05,
        Record::LinkDown => 0x06,
        Record::ColdReset => 0x07,
        Record::ReadQueue => 0x08,
        Record::RemoveOldest => 0x09,
        Record::ClearBits(bits) => 0x0A,
        Record::Control(control) => 0x0B,
        Record::HardwareSet(slot, word, mask) => 0x0C,
        Record::ReadBits => 0x0D,
        Record::NoKind => 0,
    }
}

pub fn put_record(page: &mut Page<'_>, item: Record)
    ensures { page.new ≡ put (record_text item) page.old }
{
    match item {
        Record::Advance(by) => put_advance(page, times::nanos_number(by)),
        Record::Read(request) => put_request(page, b"configuration read", request),
        Record::Write(request, data) => put_write(page, request, data),
        Record::Message(message) => put_message_record(page, message),
        Record::LinkUp => page.put_text(b"link up"),
        Record::LinkDown => page.put_text(b"link down"),
        Record::ColdReset => page.put_text(b"cold reset"),
        Record::ReadQueue => page.put_text(b"read queue register"),
        Record::RemoveOldest => page.put_text(b"remove oldest"),
        Record::ClearBits(bits) => put_clear(page, bits),
        Record::Control(control) => put_control(page, control),
        Record::HardwareSet(slot, word, mask) => put_hardware(page, slot, word, mask),
        Record::ReadBits => page.put_text(b"read status bits"),
        Record::NoKind => page.put_text(b"unknown kind"),
    }
}
