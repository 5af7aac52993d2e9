// The reader of a card's text: which bytes are a card, and which card; the grammar is in card_grammar.
#![tactic(auto)]

mod wanted; // what a line's fields must be
mod facts; // what a line names
mod so_far; // what was named, as a set-up, and refusals
mod lines; // the lines of a text

ghost use Rattle.std.specs.Prelude.{◌≡◌, length};
ghost use Rattle.card_grammar.specs.Card.{words_from, card_from, outcome, card_of};

use card_grammar::{Card, CardError, Named, Reason};
use lines::read_lines;
use readiness::Setup;
use so_far::{entries_from, nothing_named, refusal};

// The words lent take the default words; a word not named is 0.
fn put_words(named: &[Option<u32>; 2048], words: &mut [u32])
    requires { length words.old ≡ 2048 }
    ensures { words.new ≡ words_from named.now }
{
    for i in 0..2048 {
        words[i] = named[i].unwrap_or(0);
    }
}

// The card that so many lines have named, where so many words are lent for the default words.
#[tactic(auto, unfolding(card_grammar::specs::Card::card_from))]
fn card_from(lines: usize, named: &Named, lent: usize) -> Result<Card, Reason>
    ensures { result ≡ card_from lines named.now lent }
{
    let slots = named.slots.ok_or(Reason::Missing)?;
    let queue = named.queue.ok_or(Reason::Missing)?;
    let bus = named.bus.ok_or(Reason::Missing)?;
    let port_id = named.port.ok_or(Reason::Missing)?;
    if lent != 2048 {
        return Err(Reason::NoRoom);
    }
    let entries = entries_from(&named.entries);
    Ok(Card {
        lines,
        setup: Setup {
            slots,
            entries,
            bus,
            port_id,
        },
        queue,
    })
}

// Reads a card's text. The words lent, 2,048 of them, take the default words where the text is a card; else they stay, and the error
// has the set-up and the queue length as far as they were read.
#[tactic(auto, unfolding(card_grammar::specs::Card::card_of))]
pub fn read_card(text: &[u8], words: &mut [u32]) -> Result<Card, CardError>
    ensures { outcome result words.new ≡ card_of text.now words.old }
{
    let mut named = nothing_named();
    let lines = read_lines(text, &mut named)?;
    match card_from(lines, &named, words.len()) {
        Ok(card) => {
            put_words(&named.words, words);
            Ok(card)
        }
        Err(reason) => Err(refusal(lines, reason, &named)),
    }
}
