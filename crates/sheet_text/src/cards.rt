// A card as a CARD file, with comments on the times of a sheet.
// Kept in this file: long parameter lists, since each function takes what its text names, from places that share no struct.
#![tactic(auto, using(text_line::proofs::Putting::putting), unfolding(text_line::specs::Text::text_if, crate::specs::Cards::front_text, crate::specs::Cards::times_text, crate::specs::Cards::comments_text, crate::specs::Cards::slot_text, crate::specs::Cards::slots_from, crate::specs::Cards::word_text, crate::specs::Cards::words_from, crate::specs::Cards::card_text))]

ghost use Rattle.text_line.specs.Page.{put};
ghost use Rattle.text_line.specs.Text.{text_if};
ghost use Rattle.std.specs.Prelude.{◌≡◌, ltb};
ghost use Rattle.sheet_grammar.specs.Reading.{lines_of};
ghost use Rattle.describe_sheet.specs.Comments.{time_comment};
ghost use Rattle.sheet_text.specs.Lines.{ended};
ghost use Rattle.sheet_text.specs.Cards.{front_text, times_text, comments_text, slot_text, slots_from, word_text, words_from, card_text};

use describe_sheet::card_facts::{
    put_bus_fact, put_port_fact, put_queue_fact, put_slot_fact, put_slots_fact, put_word_fact,
};
use describe_sheet::comments::{put_time_comment, put_unnamed_comment};
use readiness::{Setup, Slot};
use sheet::line_naming;
use sheet_grammar::{LineRead, SheetLine};
use text_line::Page;
use times::{ClaimedTime, Code};

// The byte that ends a line.
const END: u8 = 0x0A;

// The comment in front; slots, queue, bus and port.
fn put_front(page: &mut Page<'_>, setup: Setup, queue: usize)
    ensures { page.new ≡ put (front_text setup queue) page.old }
{
    page.put_text(b"# The times of a sheet, on a card.\n");
    put_slots_fact(page, setup.slots);
    page.put_byte(END);
    put_queue_fact(page, queue);
    page.put_byte(END);
    put_bus_fact(page, setup.bus);
    page.put_byte(END);
    put_port_fact(page, setup.port_id);
    page.put_byte(END);
}

// ---- Slots

// The comment on a time.
fn put_time_line(page: &mut Page<'_>, slot: u64, which: usize, claim: ClaimedTime, code: Code)
    ensures { page.new ≡ put (ended (time_comment slot which claim code)) page.old }
{
    put_time_comment(page, slot, which, claim, code);
    page.put_byte(END);
}

// A comment for each time of a line, with the code that the slot has.
fn put_times(page: &mut Page<'_>, slot: u64, l: SheetLine, s: Slot)
    ensures { page.new ≡ put (times_text slot l s) page.old }
{
    put_time_line(page, slot, 0, l.reset, s.reset);
    put_time_line(page, slot, 1, l.dl_up, s.dl_up);
    put_time_line(page, slot, 2, l.flr, s.flr);
    put_time_line(page, slot, 3, l.d3hot, s.d3hot);
}

// The comments of a slot: its times, where a line names it.
fn put_comments(page: &mut Page<'_>, slot: u64, l: LineRead, s: Slot)
    ensures { page.new ≡ put (comments_text slot l s) page.old }
{
    if l.fits {
        put_times(page, slot, l.line, s);
    } else {
        put_unnamed_comment(page, slot);
        page.put_byte(END);
    }
}

// A slot: its comments, and its line.
fn put_slot(page: &mut Page<'_>, slot: usize, text: &[u8], s: Slot)
    ensures { page.new ≡ put (slot_text slot (lines_of text.now) s) page.old }
{
    let number = slot as u64;
    let l = line_naming(text, number);
    put_comments(page, number, l, s);
    put_slot_fact(page, slot, s);
    page.put_byte(END);
}

// The slot, where it is below the count.
fn put_slot_below(page: &mut Page<'_>, slots: usize, slot: usize, text: &[u8], s: Slot)
    ensures { page.new ≡ put (text_if (ltb slot slots) (slot_text slot (lines_of text.now) s)) page.old }
{
    if slot < slots {
        put_slot(page, slot, text, s);
    }
}

// Every slot below the count.
fn put_slots(page: &mut Page<'_>, slots: usize, entries: [Slot; 32], text: &[u8])
    ensures { page.new ≡ put (slots_from 0 slots (lines_of text.now) entries) page.old }
{
    for (i, entry) in entries.iter().enumerate() {
        put_slot_below(page, slots, i, text, *entry);
    }
}

// ---- Default words

// A default word, where it isn't 0.
fn put_word(page: &mut Page<'_>, index: usize, word: u32)
    ensures { page.new ≡ put (word_text index word) page.old }
{
    if word != 0 {
        put_word_fact(page, index, word);
        page.put_byte(END);
    }
}

fn put_words(page: &mut Page<'_>, words: &[u32])
    ensures { page.new ≡ put (words_from 0 words.now) page.old }
{
    for (i, word) in words.iter().enumerate() {
        put_word(page, i, *word);
    }
}

// ---- The card

// A set-up, its queue and its default words, after the sheet whose text this is.
pub fn put_card(page: &mut Page<'_>, setup: Setup, queue: usize, words: &[u32], text: &[u8])
    ensures { page.new ≡ put (card_text setup queue words.now text.now) page.old }
{
    let entries = setup.entries;
    put_front(page, setup, queue);
    put_slots(page, setup.slots, entries, text);
    put_words(page, words);
}
