// A card from its file.
use card_grammar::Reason;
use cli_io::files::{complain, complain_line, name_file};
use cli_io::stop::Stop;
use cli_io::text_file::{TEXT, read_text};
use cli_run::memory::{Card, WORDS};
use text_line::{LINE, Page};

// Why a text is no card, and what was expected.
fn text_of(reason: Reason) -> &'static [u8] {
    match reason {
        Reason::UnknownWord => {
            b"unknown word: expected slots, queue, bus, port, slot or word, and after slot N its reset, dlup, flr, d3hot and frs, in this order"
        }
        Reason::BadNumber => {
            b"bad number: expected 1 to 8 decimal digits for slots, queue and a slot; hex, 2 digits for bus, 4 for port, 3 for a code, 1 to 8 for an offset and a value"
        }
        Reason::LineTooShort => b"the line ends too soon: expected one whole fact",
        Reason::LineTooLong => {
            b"something stands after the fact: expected one fact, or # and a comment after it"
        }
        Reason::OutOfRange => {
            b"out of range: expected slots 1 to 32, queue 1 to 4095, a slot below slots, an offset below 100h that is a multiple of 4"
        }
        Reason::SlotsFirst => { b"slots isn't named yet: expected slots N on a line before this" }
        Reason::NamedTwice => {
            b"named twice: expected each slot, each word of a slot and each other fact once"
        }
        Reason::Missing => { b"a fact is missing: expected slots, queue, bus and port by the end" }
        Reason::NoRoom => b"no room",
    }
}

fn refuse(rt: &HostRuntime, i: usize, number: usize, reason: Reason) -> Stop {
    let mut room = [0u8; LINE];
    let mut page = Page::over(&mut room, 0);
    name_file(rt, i);
    page.put_named(b"line ", number as u64);
    page.put_text(b": ");
    page.put_text(text_of(reason));
    complain_line(rt, &page);
    Stop::Refused
}

fn too_long(rt: &HostRuntime, i: usize) -> Stop {
    name_file(rt, i);
    complain(
        rt,
        b"too long: expected a card of fewer than 131072 bytes\n",
    );
    Stop::Refused
}

// The card that a text is.
fn card_of(rt: &HostRuntime, i: usize, text: &[u8]) -> Result<Card, Stop> {
    let mut words = [0; WORDS];
    match card_text::read_card(text, &mut words) {
        Ok(card) => Ok(Card {
            setup: card.setup,
            queue: card.queue,
            words,
        }),
        Err(e) => Err(refuse(rt, i, e.line, e.reason)),
    }
}

// The card in the file that argument i names.
pub fn load_card(rt: &HostRuntime, i: usize) -> Result<Card, Stop> {
    let mut room = [0u8; TEXT];
    let text = read_text(rt, i, &mut room)?;
    if text.len() < TEXT {
        card_of(rt, i, text)
    } else {
        Err(too_long(rt, i))
    }
}
