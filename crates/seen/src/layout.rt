// A line of a file of seen times, read from its bytes.
ghost use Rattle.std.specs.Prelude.{◌≡◌, ◌+◌, ◌&&◌, eqb, drop};
ghost use Rattle.seen_grammar.specs.Reading.{line_of};
ghost use Rattle.seen.specs.inner.Sizes.{first_size};

use seen_grammar::{NoLine, SeenLine};
use sheet::{number_up_to, unit_at};
use sheet_grammar::{NumberRead, UnitRead};
use text_fields::line_end;
use times::claimed;

// A slot number has 1 to 10 digits, a seen time 1 to 16.
const SLOT_DIGITS: usize = 10;

const TIME_DIGITS: usize = 16;

// Whether the three fields fit, and nothing stands after them.
fn all_fit(slot: NumberRead, time: NumberRead, u: UnitRead, end: usize) -> bool
    ensures { result ≡ (slot.fits && time.fits && u.fits && eqb u.next end) }
{
    slot.fits && time.fits && u.fits && u.next == end
}

// What bytes say as a line, or, where they are none, what was read of it.
pub fn line_of(s: &[u8]) -> Result<SeenLine, NoLine>
    ensures { result ≡ line_of s.now }
{
    let slot = number_up_to(s, 0, SLOT_DIGITS);
    let time = number_up_to(s, slot.next, TIME_DIGITS);
    let u = unit_at(s, time.next);
    let said = SeenLine {
        slot: slot.number,
        time: claimed(time.number, u.unit),
    };
    if all_fit(slot, time, u, s.len()) {
        Ok(said)
    } else {
        Err(NoLine { so_far: said })
    }
}

// The place after the line that goes on at a place.
pub fn line_after(text: &[u8], at: usize) -> usize
    ensures { result ≡ at + first_size (drop at text.now) }
{
    let end = line_end(text, at);
    if end < text.len() { end + 1 } else { end }
}
