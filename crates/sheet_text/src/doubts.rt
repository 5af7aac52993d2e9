// Where the unit of a sheet may be wrong: a line for each time with a doubt.
// Kept in this file: long parameter lists, since each function takes what its text names, from places that share no struct.
#![tactic(auto, using(text_line::proofs::Putting::putting), unfolding(text_line::specs::Text::text_if, crate::specs::Doubts::time_doubt, crate::specs::Doubts::times_doubts, crate::specs::Doubts::slot_doubts, crate::specs::Doubts::doubts_from, crate::specs::Doubts::doubts_text))]

ghost use Rattle.std.specs.Prelude.{◌≡◌};
ghost use Rattle.text_line.specs.Page.{put};
ghost use Rattle.sheet_grammar.specs.Reading.{lines_of};
ghost use Rattle.sheet_text.specs.Doubts.{time_doubt, times_doubts, slot_doubts, doubts_from, doubts_text};

use crate::lines::put_name;
use describe_sheet::doubts::put_doubt;
use readiness::{Setup, Slot};
use sheet::{doubt, line_naming};
use sheet_grammar::{LineRead, SheetLine};
use text_line::Page;
use times::{ClaimedTime, Code};

// The line of a time, where there is a doubt.
fn put_time_doubt(
    page: &mut Page<'_>,
    name: &[u8],
    slot: u64,
    which: usize,
    claim: ClaimedTime,
    before: Code,
    after: Code,
)
    ensures { page.new ≡ put (time_doubt name.now slot which claim before after) page.old }
{
    if let Some(d) = doubt(before, after) {
        put_name(page, name);
        put_doubt(page, slot, which, claim, before, after, Some(d));
        page.put_byte(0x0A);
    }
}

// The lines of the four times of a slot.
fn put_times_doubts(
    page: &mut Page<'_>,
    name: &[u8],
    slot: u64,
    l: SheetLine,
    before: Slot,
    after: Slot,
)
    ensures { page.new ≡ put (times_doubts name.now slot l before after) page.old }
{
    put_time_doubt(page, name, slot, 0, l.reset, before.reset, after.reset);
    put_time_doubt(page, name, slot, 1, l.dl_up, before.dl_up, after.dl_up);
    put_time_doubt(page, name, slot, 2, l.flr, before.flr, after.flr);
    put_time_doubt(page, name, slot, 3, l.d3hot, before.d3hot, after.d3hot);
}

// A slot that the sheet doesn't name has none.
fn put_slot_doubts(
    page: &mut Page<'_>,
    name: &[u8],
    slot: u64,
    l: LineRead,
    before: Slot,
    after: Slot,
)
    ensures { page.new ≡ put (slot_doubts name.now slot l before after) page.old }
{
    if l.fits {
        put_times_doubts(page, name, slot, l.line, before, after);
    }
}

// The lines of each slot, by its entries before and after.
fn put_each_slot(
    page: &mut Page<'_>,
    name: &[u8],
    before: [Slot; 32],
    after: [Slot; 32],
    text: &[u8],
)
    ensures { page.new ≡ put (doubts_from name.now 0 (lines_of text.now) before after) page.old }
{
    for i in 0..32 {
        let old = before[i];
        let new = after[i];
        let number = i as u64;
        let l = line_naming(text, number);
        put_slot_doubts(page, name, number, l, old, new);
    }
}

// The lines about a sheet, by its name and its text, that led from one set-up to another.
pub fn put_doubts(page: &mut Page<'_>, name: &[u8], before: Setup, after: Setup, text: &[u8])
    ensures { page.new ≡ put (doubts_text name.now before after text.now) page.old }
{
    let old = before.entries;
    let new = after.entries;
    put_each_slot(page, name, old, new, text);
}
