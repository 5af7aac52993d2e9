// The code of one time, in lines.
#![tactic(auto, using(text_line::proofs::Putting::putting), unfolding(text_line::specs::Text::text_if, crate::specs::CodeLines::lower_line, crate::specs::CodeLines::lines_of_code, crate::specs::CodeLines::too_long_line))]

ghost use Rattle.std.specs.Prelude.{◌≡◌, Some};
ghost use Rattle.text_line.specs.Page.{put};
ghost use Rattle.times.specs.Encoder.{next_lower};
ghost use Rattle.sheet_text.specs.CodeLines.{lower_line, lines_of_code, code_lines, too_long_line};

use describe_sheet::code_words::{put_claimed, put_given, put_lower, put_no_lower, put_too_long};
use text_line::Page;
use times::{ClaimedTime, Code, code_for, next_lower};

// The byte that ends a line.
const END: u8 = 0x0A;

// The next lower code, or that there is none.
fn put_lower_line(page: &mut Page<'_>, c: ClaimedTime, code: Code)
    ensures { page.new ≡ put (lower_line c (next_lower code)) page.old }
{
    match next_lower(code) {
        Some(lower) => {
            put_lower(page, c, lower);
            page.put_byte(END);
        }
        None => {
            put_no_lower(page);
            page.put_byte(END);
        }
    }
}

// The claim, its code and the next lower one.
fn put_coded(page: &mut Page<'_>, c: ClaimedTime, code: Code)
    ensures { page.new ≡ put (lines_of_code c (Some code)) page.old }
{
    put_claimed(page, c);
    page.put_byte(END);
    put_given(page, c, code);
    page.put_byte(END);
    put_lower_line(page, c, code);
}

// The three lines of a time; none for a time without a code.
pub fn put_code_lines(page: &mut Page<'_>, c: ClaimedTime)
    ensures { page.new ≡ put (code_lines c) page.old }
{
    match code_for(c) {
        Some(code) => put_coded(page, c, code),
        None => {}
    }
}

// The line of a time without a code: 43, and by how much it is too long.
pub fn put_too_long_line(page: &mut Page<'_>, c: ClaimedTime)
    ensures { page.new ≡ put (too_long_line c) page.old }
{
    page.put_text(b"43: ");
    put_too_long(page, c);
    page.put_byte(END);
}
