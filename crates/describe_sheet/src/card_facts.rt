// The lines of a card file, each without its end.
#![tactic(auto, using(text_line::proofs::Putting::putting), unfolding(text_line::specs::Text::text_if, crate::specs::Facts::slots_fact, crate::specs::Facts::queue_fact, crate::specs::Facts::bus_fact, crate::specs::Facts::port_fact, crate::specs::Facts::slot_fact, crate::specs::Facts::word_fact))]

ghost use Rattle.std.specs.Prelude.{◌≡◌};
ghost use Rattle.text_line.specs.Page.{put};
ghost use Rattle.describe_sheet.specs.Facts.{slots_fact, queue_fact, bus_fact, port_fact, slot_fact, word_fact};

use crate::parts::put_code;
use readiness::Slot;
use text_line::Page;

// How many slots there are.
pub fn put_slots_fact(page: &mut Page<'_>, slots: usize)
    ensures { page.new ≡ put (slots_fact slots) page.old }
{
    page.put_named(b"slots ", slots as u64);
}

// How many messages the queue has room for.
pub fn put_queue_fact(page: &mut Page<'_>, queue: usize)
    ensures { page.new ≡ put (queue_fact queue) page.old }
{
    page.put_named(b"queue ", queue as u64);
}

// The bus number.
pub fn put_bus_fact(page: &mut Page<'_>, bus: u8)
    ensures { page.new ≡ put (bus_fact bus) page.old }
{
    page.put_text(b"bus ");
    page.put_hex(2, bus as u64);
}

// The port's ID.
pub fn put_port_fact(page: &mut Page<'_>, id: u16)
    ensures { page.new ≡ put (port_fact id) page.old }
{
    page.put_text(b"port ");
    page.put_hex(4, id as u64);
}

// A slot's entry.
pub fn put_slot_fact(page: &mut Page<'_>, slot: usize, entry: Slot)
    ensures { page.new ≡ put (slot_fact slot entry) page.old }
{
    let reset = entry.reset;
    let dl_up = entry.dl_up;
    let flr = entry.flr;
    let d3hot = entry.d3hot;
    page.put_named(b"slot ", slot as u64);
    put_code(page, b" reset ", reset);
    put_code(page, b" dlup ", dl_up);
    put_code(page, b" flr ", flr);
    put_code(page, b" d3hot ", d3hot);
    page.put_either(entry.sends_frs, b" frs yes", b" frs no");
}

// The default word at an index among all slots' words, 64 per slot.
pub fn put_word_fact(page: &mut Page<'_>, index: usize, word: u32)
    ensures { page.new ≡ put (word_fact index word) page.old }
{
    page.put_named(b"word ", (index / 64) as u64);
    page.put_text(b" ");
    page.put_hex(2, (index % 64 * 4) as u64);
    page.put_text(b" ");
    page.put_hex(8, word as u64);
}
