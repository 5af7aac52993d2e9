// Why a card's set-up is refused: the slot, and the word, at fault.
ghost use Rattle.std.specs.Prelude.{◌≡◌};

use cli_io::files::{complain_line, name_file};
use cli_io::stop::Stop;
use cli_run::memory::Card;
use describe_records::record_words::put_word;
use describe_trace::trace_words::put_refusal;
use execute::kinds::kind_of_entry;
use readiness::{Setup, Slot};
use registers::Kind;
use text_line::{LINE, Page};
use times::Code;

// ---- A time code

// Whether every code of an entry is allowed.
fn is_fine_entry(entry: Slot) -> bool {
    times::allowed(entry.reset)
        && times::allowed(entry.dl_up)
        && times::allowed(entry.flr)
        && times::allowed(entry.d3hot)
}

fn put_bad_code(page: &mut Page<'_>, name: &[u8], code: Code) {
    if !times::allowed(code) {
        page.put_text(name);
        page.put_hex(3, u64::from(times::code_number(code)));
        page.put_text(b"h");
    }
}

// The first slot with a code that isn't allowed, and its codes that aren't.
fn put_bad_slot(page: &mut Page<'_>, setup: Setup) {
    let bad = setup
        .entries
        .iter()
        .position(|entry| !is_fine_entry(*entry));
    if let Some(slot) = bad {
        let entry = setup.entries[slot];
        page.put_named(b": slot ", slot as u64);
        page.put_text(b" has");
        put_bad_code(page, b" reset ", entry.reset);
        put_bad_code(page, b" dlup ", entry.dl_up);
        put_bad_code(page, b" flr ", entry.flr);
        put_bad_code(page, b" d3hot ", entry.d3hot);
        page.put_text(b", expected A1Eh (1006632960 ns) or less");
    }
}

// ---- A default word

// What a slot holds; past the last entry, what a blank one does.
fn kind_at(setup: Setup, slot: usize) -> Kind {
    match setup.entries.get(slot) {
        Some(entry) => kind_of_entry(*entry),
        None => kind_of_entry(readiness::blank_slot()),
    }
}

// Whether a default word at an index among all slots' words is allowed.
fn is_fine_word(setup: Setup, index: usize, word: u32) -> bool {
    registers::default_allowed(kind_at(setup, index / 64), index % 64, word)
}

// The bits that must be 0.
fn zeros_of(setup: Setup, index: usize) -> u32 {
    registers::default_must_be_zero(kind_at(setup, index / 64), index % 64)
}

// The first default word that isn't allowed, and what was expected of it.
fn put_bad_word(page: &mut Page<'_>, setup: Setup, words: &[u32]) {
    for (index, word) in words.iter().enumerate() {
        if !is_fine_word(setup, index, *word) {
            page.put_named(b": slot ", (index / 64) as u64);
            page.put_text(b" word ");
            page.put_hex(2, (index % 64 * 4) as u64);
            page.put_text(b"h has ");
            put_word(page, *word);
            page.put_text(b", expected 0 in the bits of ");
            put_word(page, zeros_of(setup, index));
            return;
        }
    }
}

// ---- The refusal

// Says that the set-up of the card that argument i names is refused, and the slot, or the word, that the refusal is about.
pub fn complain_refusal(rt: &HostRuntime, i: usize, card: &Card, number: u8) -> Stop
    ensures { result ≡ Stop.Refused }
{
    let mut room = [0u8; LINE];
    let mut page = Page::over(&mut room, 0);
    name_file(rt, i);
    put_refusal(&mut page, number);
    // Kept: the numbers of refusals are the papers'.
    match number {
        3 => put_bad_slot(&mut page, card.setup),
        4 => put_bad_word(&mut page, card.setup, &card.words),
        _ => {}
    }
    complain_line(rt, &page);
    Stop::Refused
}
