// An answer in words: the status with its number and name, interrupts, counts and data.
// Kept in this file: matches on numbers, since kinds and statuses are the papers' numbers.
#![tactic(auto, using(text_line::proofs::Putting::putting), unfolding(text_line::specs::Text::text_if, crate::specs::Answers::wrong_state_text, crate::specs::Answers::bad_value_text, crate::specs::Answers::status_text, crate::specs::Answers::interrupts_text, crate::specs::Answers::count_text, crate::specs::Answers::data_of, crate::specs::Answers::reads_of, crate::specs::Answers::data_text, crate::specs::Answers::answer_text))]

ghost use Rattle.std.specs.Prelude.{◌≡◌};
ghost use Rattle.text_line.specs.Page.{put};
ghost use Rattle.describe_trace.specs.Answers.{wrong_state_text, bad_value_text, status_text, interrupts_text, count_text, data_of, reads_of, data_text, answer_text};

use bits::byte_at;
use describe_records::record_words::{kind_of, put_listed};
use records::Record;
use text_line::Page;

// Status 23, by the record's kind: what of the link or the slot is not as the record wants it.
fn put_wrong_state(page: &mut Page<'_>, kind: u8)
    ensures { page.new ≡ put (wrong_state_text kind) page.old }
{
    match kind {
        0x05 => page.put_text(b" link is up"),
        0x0C => page.put_text(b" slot is not Ready"),
        _ => page.put_text(b" link is down"),
    }
}

// Status 24: which value is not allowed.
fn put_bad_value(page: &mut Page<'_>, kind: u8)
    ensures { page.new ≡ put (bad_value_text kind) page.old }
{
    match kind {
        0x0B => page.put_text(b" control above 15, or signalling 3"),
        _ => page.put_text(b" enables above 15"),
    }
}

// A status by name.
fn put_status(page: &mut Page<'_>, kind: u8, status: u8)
    ensures { page.new ≡ put (status_text kind status) page.old }
{
    match status {
        0 => page.put_text(b" done"),
        16 => page.put_text(b" CRS shown"),
        17 => page.put_text(b" CRS, to be re-issued"),
        18 => page.put_text(b" Unsupported Request"),
        19 => page.put_text(b" no readiness message"),
        20 => page.put_text(b" no such slot"),
        21 => page.put_text(b" word above 63"),
        22 => page.put_text(b" clock would pass 10^15 ns"),
        23 => put_wrong_state(page, kind),
        24 => put_bad_value(page, kind),
        _ => page.put_text(b" unknown status"),
    }
}

// The interrupts by name, where there are any.
fn put_interrupts(page: &mut Page<'_>, bits: u8)
    ensures { page.new ≡ put (interrupts_text bits) page.old }
{
    let received = bits % 2 == 1;
    let overflow = bits / 2 % 2 == 1;
    page.put_if(bits != 0, b"; interrupts");
    put_listed(page, false, received, b"Received");
    put_listed(page, received, overflow, b"Overflow");
    put_listed(page, received | overflow, bits / 4 % 2 == 1, b"DRS");
}

// A count with its name, where it isn't 0.
fn put_count(page: &mut Page<'_>, name: &[u8], n: u8)
    ensures { page.new ≡ put (count_text name.now n) page.old }
{
    if n != 0 {
        page.put_named(name, n as u64);
    }
}

// The four data bytes, low byte first.
fn data_of(answer: &[u8]) -> u64
    ensures { result ≡ data_of answer.now }
{
    u64::from(byte_at(answer, 4))
        + 256 * u64::from(byte_at(answer, 5))
        + 65536 * u64::from(byte_at(answer, 6))
        + 16777216 * u64::from(byte_at(answer, 7))
}

// Whether a record of this kind reads something: registers, the queue register, status bits.
fn reads(kind: u8) -> bool
    ensures { result ≡ reads_of kind }
{
    (kind == 0x02) | (kind == 0x08) | (kind == 0x0D)
}

// The data, where the record reads something.
fn put_data(page: &mut Page<'_>, shown: bool, data: u64)
    ensures { page.new ≡ put (data_text shown «data») page.old }
{
    if shown {
        page.put_text(b"; data ");
        page.put_hex(8, data);
        page.put_text(b"h");
    }
}

// The answer to a record: its 8 bytes.
pub fn put_answer(page: &mut Page<'_>, item: Record, answer: &[u8])
    ensures { page.new ≡ put (answer_text item answer.now) page.old }
{
    let kind = kind_of(item);
    let status = byte_at(answer, 0);
    let data = data_of(answer);
    page.put_named(b" -> ", status as u64);
    put_status(page, kind, status);
    put_interrupts(page, byte_at(answer, 1));
    put_count(page, b"; FRS queued ", byte_at(answer, 2));
    put_count(page, b"; FRS dropped ", byte_at(answer, 3));
    put_data(page, reads(kind) | (data != 0), data);
}
