// Why the system refused something, in its words.
ghost use Rattle.std.specs.Prelude.{◌≤◌, length};

use std::fmt::Write;
use std::{fmt, io};
use text_line::{LINE, Page};

// A text as it is formatted.
#[derive(Drop)]
struct Words<'a>(Page<'a>);

impl fmt::Write for Words<'_> {
    fn write_str(&mut self, s: &str) -> fmt::Result {
        self.0.put_text(s.as_bytes());
        Ok(())
    }
}

// The text before the last bracket and the blank before it; all, where there is no bracket.
fn before_bracket(text: &[u8]) -> &[u8]
    ensures { length result.now ≤ length text.now }
{
    match text.iter().rposition(|&b| b == b'(') {
        Some(i) if i > 0 => &text[..i - 1],
        _ => text,
    }
}

// Puts the system's words for an error, without its number, which stands in brackets after them.
pub fn put_reason(line: &mut Page<'_>, e: &io::Error) {
    let mut room = [0u8; LINE];
    let mut words = Words(Page::over(&mut room, 0));
    let _ = write!(words, "{e}");
    line.put_text(before_bracket(words.0.text()));
}
