// A card in words, with each code and its time.
// Kept in this file: long parameter lists, since each function takes what its text names, from places that share no struct.
#![tactic(auto, using(text_line::proofs::Putting::putting), unfolding(text_line::specs::Text::text_if, crate::specs::Cards::front_text, crate::specs::Cards::code_text, crate::specs::Cards::entry_text, crate::specs::Cards::default_text))]

ghost use Rattle.std.specs.Prelude.{◌≡◌};
ghost use Rattle.text_line.specs.Page.{put};
ghost use Rattle.describe_state.specs.Cards.{front_text, code_text, entry_text, default_text};

use describe_records::record_words::{put_id, put_word};
use describe_times::time_words::put_time;
use readiness::Slot;
use text_line::Page;
use times::Code;

// The card's first line: slots, queue, bus number and the port's ID.
pub fn put_front(page: &mut Page<'_>, slots: usize, queue: usize, bus: u8, port_id: u16)
    ensures { page.new ≡ put (front_text slots queue bus port_id) page.old }
{
    page.put_named(b"slots ", slots as u64);
    page.put_named(b", queue ", queue as u64);
    page.put_text(b", bus ");
    page.put_hex(2, bus as u64);
    page.put_text(b"h, port ");
    put_id(page, port_id);
}

// A code after its name, with its time.
fn put_code(page: &mut Page<'_>, name: &[u8], code: Code)
    ensures { page.new ≡ put (code_text name.now code) page.old }
{
    page.put_text(name);
    page.put_hex(3, times::code_number(code) as u64);
    page.put_text(b"h = ");
    put_time(page, times::in_nanos(code));
    page.put_if(!times::allowed(code), b" (above A1Eh: refused)");
}

// A slot's entry: its four codes, each with its time, and whether it sends FRS.
pub fn put_entry(page: &mut Page<'_>, slot: usize, entry: Slot)
    ensures { page.new ≡ put (entry_text slot entry) page.old }
{
    let reset = entry.reset;
    let dl_up = entry.dl_up;
    let flr = entry.flr;
    let d3hot = entry.d3hot;
    page.put_named(b"slot ", slot as u64);
    put_code(page, b": Reset ", reset);
    put_code(page, b", DL Up ", dl_up);
    put_code(page, b", FLR ", flr);
    put_code(page, b", D3hot to D0 ", d3hot);
    page.put_either(entry.sends_frs, b", sends FRS", b", no FRS");
}

// The default word at an index among all slots' words, 64 per slot.
pub fn put_default(page: &mut Page<'_>, index: usize, word: u32)
    ensures { page.new ≡ put (default_text index word) page.old }
{
    page.put_named(b"slot ", (index / 64) as u64);
    page.put_text(b" default at ");
    page.put_hex(2, (index % 64 * 4) as u64);
    page.put_text(b"h: ");
    put_word(page, word);
}
