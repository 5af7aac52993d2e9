// Why a sheet is refused.
// Kept in this file: long parameter lists, since each function takes what its text names, from places that share no struct.
#![tactic(auto, using(text_line::proofs::Putting::putting), unfolding(text_line::specs::Text::text_if, crate::specs::Refused::refusal_line, crate::specs::Refused::refused_text))]

ghost use Rattle.std.specs.Prelude.{◌≡◌};
ghost use Rattle.text_line.specs.Page.{put};
ghost use Rattle.sheet_text.specs.Refused.{refusal_line, refused_text};

use crate::lines::put_name;
use describe_sheet::refusals::put_refusal;
use readiness::Setup;
use sheet::{fault_in, line_of, place_after};
use text_line::Page;

// The line about a refusal: its number, and which line is at fault, the first of the rest of the sheet.
fn put_refusal_line(
    page: &mut Page<'_>,
    name: &[u8],
    slots: usize,
    number: u8,
    row: usize,
    rest: &[u8],
)
    ensures { page.new ≡ put (refusal_line name.now slots number row rest.now) page.old }
{
    let l = line_of(rest);
    let fault = fault_in(rest);
    put_name(page, name);
    put_refusal(page, number, row, slots, l.line, fault);
    page.put_byte(0x0A);
}

// That of a sheet, by its name, on a set-up; nothing where it is accepted.
pub fn put_refused(page: &mut Page<'_>, name: &[u8], setup: Setup, text: &[u8])
    ensures { page.new ≡ put (refused_text name.now setup text.now) page.old }
{
    let got = sheet::read(text, setup);
    if got.number != 0 {
        let place = place_after(text, got.line.saturating_sub(1)).min(text.len());
        put_refusal_line(
            page,
            name,
            setup.slots,
            got.number,
            got.line,
            &text[place..],
        );
    }
}
