// What a line names; one that is refused changes nothing.
ghost use Rattle.std.specs.Prelude.{◌≡◌, ◌<◌, OnErr};
ghost use Rattle.std.specs.Result.{IfOk};
ghost use Rattle.card_grammar.specs.Grammar.{entered, enter_slots, enter_queue, enter_bus, enter_port, enter_slot, place_wanted, enter_word, enter_line};

use crate::wanted::{
    end_wanted, entry_wanted, fresh, number_fact, number_wanted, offset_allowed, slot_allowed,
};
use card_grammar::{Fact, Named, Reason};
use text_fields::{Base, Numeral, field_is, no_field};

// Decimal and hex numbers of 1 to 8 digits.
const DECIMAL: Numeral = Numeral {
    base: Base::Decimal,
    least: 1,
    most: 8,
};

const HEX: Numeral = Numeral {
    base: Base::Hex,
    least: 1,
    most: 8,
};

// The facts with one number.
const SLOTS: Fact = Fact {
    form: DECIMAL,
    low: 1,
    high: 32,
};

const QUEUE: Fact = Fact {
    form: DECIMAL,
    low: 1,
    high: 4095,
};

const BUS: Fact = Fact {
    form: Numeral {
        base: Base::Hex,
        least: 2,
        most: 2,
    },
    low: 0,
    high: 0xFF,
};

const PORT: Fact = Fact {
    form: Numeral {
        base: Base::Hex,
        least: 4,
        most: 4,
    },
    low: 0,
    high: 0xFFFF,
};

#[tactic(auto, unfolding(card_grammar::specs::Grammar::enter_slots))]
fn enter_slots(line: &[u8], named: &mut Named) -> Result<(), Reason>
    ensures value { entered result named.new ≡ enter_slots line.now named.old }
    ensures kept { OnErr result (named.new ≡ named.old) }
{
    named.slots = Some(number_fact(line, SLOTS, named.slots.is_some())? as usize);
    Ok(())
}

#[tactic(auto, unfolding(card_grammar::specs::Grammar::enter_queue))]
fn enter_queue(line: &[u8], named: &mut Named) -> Result<(), Reason>
    ensures value { entered result named.new ≡ enter_queue line.now named.old }
    ensures kept { OnErr result (named.new ≡ named.old) }
{
    named.queue = Some(number_fact(line, QUEUE, named.queue.is_some())? as usize);
    Ok(())
}

#[tactic(auto, unfolding(card_grammar::specs::Grammar::enter_bus))]
fn enter_bus(line: &[u8], named: &mut Named) -> Result<(), Reason>
    ensures value { entered result named.new ≡ enter_bus line.now named.old }
    ensures kept { OnErr result (named.new ≡ named.old) }
{
    named.bus = Some(number_fact(line, BUS, named.bus.is_some())? as u8);
    Ok(())
}

#[tactic(auto, unfolding(card_grammar::specs::Grammar::enter_port))]
fn enter_port(line: &[u8], named: &mut Named) -> Result<(), Reason>
    ensures value { entered result named.new ≡ enter_port line.now named.old }
    ensures kept { OnErr result (named.new ≡ named.old) }
{
    named.port = Some(number_fact(line, PORT, named.port.is_some())? as u16);
    Ok(())
}

// slot N reset HHH dlup HHH flr HHH d3hot HHH frs yes|no
#[tactic(auto, unfolding(card_grammar::specs::Grammar::enter_slot))]
fn enter_slot(line: &[u8], named: &mut Named) -> Result<(), Reason>
    ensures value { entered result named.new ≡ enter_slot line.now named.old }
    ensures kept { OnErr result (named.new ≡ named.old) }
{
    let n = number_wanted(line, 1, DECIMAL)?;
    let entry = entry_wanted(line)?;
    slot_allowed(named.slots, n)?;
    let n = n as usize;
    fresh(named.entries[n].is_some())?;
    named.entries[n] = Some(entry);
    Ok(())
}

// The place and the value of a default word: N OFFSET VALUE.
#[tactic(auto, unfolding(card_grammar::specs::Grammar::place_wanted))]
fn place_wanted(line: &[u8], slots: Option<usize>) -> Result<(usize, u32), Reason>
    ensures value { result ≡ place_wanted line.now slots }
    ensures below { IfOk result (λ w. w.0 < 2048) }
{
    let n = number_wanted(line, 1, DECIMAL)?;
    let offset = number_wanted(line, 2, HEX)?;
    let value = number_wanted(line, 3, HEX)?;
    end_wanted(line, 4)?;
    slot_allowed(slots, n)?;
    offset_allowed(offset)?;
    Ok((n as usize * 64 + offset as usize / 4, value))
}

// word N OFFSET VALUE
#[tactic(auto, unfolding(card_grammar::specs::Grammar::enter_word))]
fn enter_word(line: &[u8], named: &mut Named) -> Result<(), Reason>
    ensures value { entered result named.new ≡ enter_word line.now named.old }
    ensures kept { OnErr result (named.new ≡ named.old) }
{
    let (place, value) = place_wanted(line, named.slots)?;
    fresh(named.words[place].is_some())?;
    named.words[place] = Some(value);
    Ok(())
}

// One line: nothing but blanks and a comment, or a fact.
#[tactic(auto, unfolding(card_grammar::specs::Grammar::enter_line))]
pub fn enter_line(line: &[u8], named: &mut Named) -> Result<(), Reason>
    ensures value { entered result named.new ≡ enter_line line.now named.old }
    ensures kept { OnErr result (named.new ≡ named.old) }
{
    if no_field(line, 0) {
        return Ok(());
    }
    if field_is(line, 0, b"slots") {
        return enter_slots(line, named);
    }
    if field_is(line, 0, b"queue") {
        return enter_queue(line, named);
    }
    if field_is(line, 0, b"bus") {
        return enter_bus(line, named);
    }
    if field_is(line, 0, b"port") {
        return enter_port(line, named);
    }
    if field_is(line, 0, b"slot") {
        return enter_slot(line, named);
    }
    if field_is(line, 0, b"word") {
        return enter_word(line, named);
    }
    Err(Reason::UnknownWord)
}
