// What a line's fields must be.
ghost use Rattle.std.specs.Prelude.{◌≡◌, ◌<◌};
ghost use Rattle.card_grammar.specs.Grammar.{unless, unfit, word_wanted, number_wanted, end_wanted, fresh, hex_of, in_range, number_fact, slot_allowed, code_wanted, is_yes, yes_no_wanted, entry_wanted, offset_allowed};

use card_grammar::{Fact, Reason};
use readiness::Slot;
use text_fields::{Base, Numeral, field_is, no_field, number_at};
use times::{Code, code_of};

// An error unless the test holds.
fn unless(holds: bool, why: Reason) -> Result<(), Reason>
    ensures { result ≡ unless holds why }
{
    if holds { Ok(()) } else { Err(why) }
}

// A field that isn't what is wanted.
#[tactic(auto, unfolding(card_grammar::specs::Grammar::unfit))]
fn unfit(why: Reason, line: &[u8], k: usize) -> Reason
    ensures { result ≡ unfit why k line.now }
{
    if no_field(line, k) {
        Reason::LineTooShort
    } else {
        why
    }
}

// Field k must be this word.
#[tactic(auto, unfolding(card_grammar::specs::Grammar::word_wanted))]
fn word_wanted(line: &[u8], k: usize, word: &[u8]) -> Result<(), Reason>
    ensures { result ≡ word_wanted word.now k line.now }
{
    unless(field_is(line, k, word), unfit(Reason::UnknownWord, line, k))
}

// Field k must be a number of this form.
#[tactic(auto, unfolding(card_grammar::specs::Grammar::number_wanted))]
pub fn number_wanted(line: &[u8], k: usize, form: Numeral) -> Result<u32, Reason>
    ensures { result ≡ number_wanted form k line.now }
{
    number_at(line, k, form).ok_or(unfit(Reason::BadNumber, line, k))
}

// No field k may follow.
#[tactic(auto, unfolding(card_grammar::specs::Grammar::end_wanted))]
pub fn end_wanted(line: &[u8], k: usize) -> Result<(), Reason>
    ensures { result ≡ end_wanted k line.now }
{
    unless(no_field(line, k), Reason::LineTooLong)
}

// Nothing is named twice.
pub fn fresh(named: bool) -> Result<(), Reason>
    ensures { result ≡ fresh named }
{
    unless(!named, Reason::NamedTwice)
}

fn in_range(fact: Fact, n: u32) -> Result<(), Reason>
    ensures { result ≡ in_range fact n }
{
    unless(fact.low <= n && n <= fact.high, Reason::OutOfRange)
}

// The number of a fact that isn't named yet.
#[tactic(auto, unfolding(card_grammar::specs::Grammar::number_fact))]
pub fn number_fact(line: &[u8], fact: Fact, named: bool) -> Result<u32, Reason>
    ensures { result ≡ number_fact fact named line.now }
{
    let n = number_wanted(line, 1, fact.form)?;
    end_wanted(line, 2)?;
    in_range(fact, n)?;
    fresh(named)?;
    Ok(n)
}

// The slots must be named before a slot is, and it must be one of them.
pub fn slot_allowed(slots: Option<usize>, n: u32) -> Result<(), Reason>
    ensures { result ≡ slot_allowed slots n }
{
    match slots {
        None => Err(Reason::SlotsFirst),
        Some(slots) => unless((n as usize) < slots && n < 32, Reason::OutOfRange),
    }
}

// A byte offset of a register is a multiple of 4 below 100h.
pub fn offset_allowed(offset: u32) -> Result<(), Reason>
    ensures { result ≡ offset_allowed offset }
{
    unless(offset < 0x100 && offset % 4 == 0, Reason::OutOfRange)
}

// A word, and a code of three hex digits after it.
#[tactic(auto, unfolding(card_grammar::specs::Grammar::code_wanted))]
fn code_wanted(line: &[u8], k: usize, name: &[u8]) -> Result<Code, Reason>
    requires { k < 12 }
    ensures { result ≡ code_wanted name.now k line.now }
{
    word_wanted(line, k, name)?;
    let code = Numeral {
        base: Base::Hex,
        least: 3,
        most: 3,
    };
    let n = number_wanted(line, k + 1, code)?;
    Ok(code_of(n as u16))
}

// yes or no
#[tactic(auto, unfolding(card_grammar::specs::Grammar::yes_no_wanted))]
fn yes_no_wanted(line: &[u8], k: usize) -> Result<bool, Reason>
    ensures { result ≡ yes_no_wanted k line.now }
{
    if field_is(line, k, b"yes") {
        return Ok(true);
    }
    word_wanted(line, k, b"no")?;
    Ok(false)
}

// reset HHH dlup HHH flr HHH d3hot HHH frs yes|no
#[tactic(auto, unfolding(card_grammar::specs::Grammar::entry_wanted))]
pub fn entry_wanted(line: &[u8]) -> Result<Slot, Reason>
    ensures { result ≡ entry_wanted line.now }
{
    let reset = code_wanted(line, 2, b"reset")?;
    let dl_up = code_wanted(line, 4, b"dlup")?;
    let flr = code_wanted(line, 6, b"flr")?;
    let d3hot = code_wanted(line, 8, b"d3hot")?;
    word_wanted(line, 10, b"frs")?;
    let sends_frs = yes_no_wanted(line, 11)?;
    end_wanted(line, 12)?;
    Ok(Slot {
        reset,
        dl_up,
        flr,
        d3hot,
        sends_frs,
    })
}
