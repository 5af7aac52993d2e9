// `otsnebura message`: one readiness message of 16 bytes, read or written in hex.
use cli_arguments::arguments::{arg_count, arg_is, bad_usage};
use cli_io::args::arg;
use cli_io::failure::after_printing;
use cli_io::files::complain_line;
use cli_io::output::Output;
use cli_io::sink::Sink;
use cli_io::stop::Stop;
use describe_records::record_words::put_message;
use text_fields::{Base, digit_of};
use text_hex::Packed;
use text_line::{LINE, Page};

// The line is printed.
fn print_line(rt: &HostRuntime, out: &mut Output<'_>) -> Result<(), Stop> {
    out.end_line();
    after_printing(rt, out.flush())?;
    Ok(())
}

// ---- Hex text among the arguments

// How many bytes a text of so many characters was packed to; nothing where it is no hex text, or has more bytes than fit.
fn whole_count(packed: Packed, characters: usize) -> Option<usize> {
    if text_hex::is_whole(packed.after) && packed.consumed == characters {
        Some(packed.written)
    } else {
        None
    }
}

// The bytes of the hex text of the arguments from 3 on, at most 32, put into the room; nothing where it is no such text.
fn bytes_given<'a>(rt: &HostRuntime, room: &'a mut [u8]) -> Option<&'a [u8]> {
    let mut line = [0u8; LINE];
    let mut page = Page::over(&mut line, 0);
    for i in 3..arg_count(rt).min(35) {
        let mut given = [0u8; 256];
        page.put_text(arg(rt, i, &mut given));
        page.put_byte(b' ');
    }
    let text = page.text();
    let packed = text_hex::pack(text_hex::start(), text, &mut *room);
    let n = whole_count(packed, text.len())?;
    room.get(..n)
}

// ---- Reading

// What isn't as a DRS or an FRS has it: byte i, and what was expected.
fn put_byte_fault(line: &mut Page<'_>, bytes: &[u8], i: usize, expected: &[u8]) {
    let b = bytes.get(i).copied().unwrap_or(0);
    line.put_named(b"byte ", i as u64);
    line.put_text(b" is ");
    line.put_hex(2, u64::from(b));
    line.put_text(b"h, expected ");
    line.put_text(expected);
}

// The first thing that keeps bytes from being a readiness message.
fn put_message_fault(line: &mut Page<'_>, bytes: &[u8]) {
    let Ok(all) = <[u8; 16]>::try_from(bytes) else {
        line.put_decimal(bytes.len() as u64);
        line.put_text(b" bytes, expected 16");
        return;
    };
    let (i, expected): (usize, &[u8]) = match all {
        [0..=0x2F | 0x31..=0x33 | 0x35.., ..] => (0, b"34h (DRS) or 30h (FRS)"),
        _ if all[1] / 16 % 8 != 0 => (1, b"0 in bits 6:4 (TC)"),
        _ if all[7] != 0x7F => (7, b"7Fh (vendor-defined)"),
        _ if all[10] != 0 => (10, b"00h"),
        _ if all[11] != 1 => (11, b"01h"),
        [0x34, ..] => (12, b"08h, since byte 0 says DRS"),
        _ => (12, b"09h, since byte 0 says FRS"),
    };
    put_byte_fault(&mut *line, bytes, i, expected);
}

fn complain_message(rt: &HostRuntime, bytes: &[u8]) -> Stop {
    let mut room = [0u8; LINE];
    let mut line = Page::over(&mut room, 0);
    line.put_text(b"no readiness message (19): ");
    put_message_fault(&mut line, bytes);
    complain_line(rt, &line);
    Stop::Refused
}

// The message in words, or why it is none.
fn tell_message(rt: &HostRuntime, bytes: &[u8]) -> Result<(), Stop> {
    let message = messages::read(bytes);
    if message.is_none() {
        return Err(complain_message(rt, bytes));
    }
    let mut out = Output::new(Sink::Output(rt));
    out.put(|page| put_message(page, message));
    print_line(rt, &mut out)
}

fn read_message(rt: &HostRuntime) -> Result<(), Stop> {
    let mut room = [0u8; 512];
    match bytes_given(rt, &mut room) {
        Some(bytes) => tell_message(rt, bytes),
        None => Err(bad_usage(rt, b"message read wants hex digits, two to a byte")),
    }
}

// ---- Writing

// The ID in argument 3, four hex digits.
fn id_of(rt: &HostRuntime) -> Option<u16> {
    let mut room = [0u8; 4];
    let mut bytes = [0u8; 4];
    let text = arg(rt, 3, &mut room);
    let packed = text_hex::pack(text_hex::start(), text, &mut bytes);
    if whole_count(packed, text.len()) == Some(2) {
        Some(u16::from_be_bytes([bytes[0], bytes[1]]))
    } else {
        None
    }
}

// The reason in argument 4, one hex digit.
fn reason_of(rt: &HostRuntime) -> Option<u8> {
    let mut room = [0u8; 1];
    match arg(rt, 4, &mut room) {
        [digit] => digit_of(Base::Hex, *digit),
        _ => None,
    }
}

fn write_message(rt: &HostRuntime, kind: u8, reason: Option<u8>) -> Result<(), Stop> {
    let Some(id) = id_of(rt) else {
        return Err(bad_usage(rt, b"message wants a requester ID of four hex digits"));
    };
    let mut bytes = [0u8; 16];
    let is_written = match reason {
        Some(reason) => messages::write(kind, id, reason, &mut bytes) == 0,
        None => false,
    };
    if !is_written {
        return Err(bad_usage(rt, b"message wants a reason of one hex digit"));
    }
    let mut out = Output::new(Sink::Output(rt));
    out.put(|page| page.put_bytes(&bytes));
    print_line(rt, &mut out)
}

pub fn message_command(rt: &HostRuntime) -> Result<(), Stop> {
    match arg_count(rt) {
        4..=35 if arg_is(rt, 2, b"read") => read_message(rt),
        4 if arg_is(rt, 2, b"drs") => write_message(rt, messages::DRS, Some(0)),
        5 if arg_is(rt, 2, b"frs") => write_message(rt, messages::FRS, reason_of(rt)),
        _ => Err(bad_usage(rt, b"message wants read HEX, drs ID, or frs ID REASON")),
    }
}
