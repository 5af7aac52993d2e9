// The lines of a text, one after the other.
ghost use Rattle.std.specs.Prelude.{◌≡◌, ◌+◌, cond, ltb, length};
ghost use Rattle.text_fields.specs.Text.{lines_of};
ghost use Rattle.card_grammar.specs.Grammar.{told, read_lines, named_until};

use crate::facts::enter_line;
use crate::so_far::refusal;
use card_grammar::{CardError, Named};
use text_fields::line_end;

// Enters the lines in turn, up to the first that is refused, which changes nothing, and gives how many they are.
pub fn read_lines(text: &[u8], named: &mut Named) -> Result<usize, CardError>
    ensures read { told result named.new ≡ read_lines 0 (lines_of text.now) named.old }
    ensures so_far { named.new ≡ named_until (lines_of text.now) named.old }
{
    let mut at: usize = 0;
    let mut count: usize = 0;
    // Kept: the step is a line's length, and each turn reads on from where the last line ended.
    while at < text.len() {
        let end = line_end(text, at);
        count += 1;
        if let Err(reason) = enter_line(&text[at..end], named) {
            return Err(refusal(count, reason, named));
        }
        at = if end < text.len() { end + 1 } else { end };
    }
    Ok(count)
}
