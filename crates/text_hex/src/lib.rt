// Hex text to bytes, piece by piece: a byte is two hex digits; blanks, line ends and comments stand between bytes.
#![tactic(auto)]

ghost use Rattle.std.specs.Prelude.{◌≡◌};
ghost use Rattle.text_hex.specs.Text.{separates as separates_of, byte_of, in_gap, in_byte, in_comment, turn_of};
ghost use Rattle.text_hex.specs.Packing.{start as start_of, one_more, is_between, is_whole, past as past_of, spoiled, step_by, step_of, left, leaves};

use text_fields::{Base, digit_of, is_blank};

// What the next character stands in.
#[derive(Clone, Copy)]
pub enum Within {
    // Between two bytes.
    Gap,
    // In a byte, after its first digit.
    Byte(u8),
    // In a comment: '#' and all that follows it in the line.
    Comment,
}

// How far a text is packed: what the next character stands in, whether it is a bad one, and its line and column, counted from 1.
#[derive(Clone, Copy)]
pub struct Packing {
    pub within: Within,
    // Kept: a packing that met a bad character says by the other fields where it stands, so no value goes with one case alone.
    pub bad: bool,
    pub line: u64,
    pub column: u64,
}

// What a call packed: how far the text is packed now, how many characters were consumed, and how many bytes stand in the room.
#[derive(Clone, Copy)]
pub struct Packed {
    pub after: Packing,
    pub consumed: usize,
    pub written: usize,
}

// What a character does.
#[derive(Clone, Copy)]
enum Turn {
    // The next one stands in this.
    Goes(Within),
    // It completes this byte.
    Completes(u8),
    // It has no place here.
    Bad,
}

// What a character does in a room, and how far the text is packed then.
#[derive(Clone, Copy)]
enum Step {
    // The packing stops before it.
    Stops(Packing),
    // It is passed.
    Passes(Packing),
    // It is passed, and completes this byte.
    Puts(u8, Packing),
}

// What may stand between bytes, beside comments: blanks and line ends.
#[tactic(auto, unfolding(crate::specs::Text::separates))]
fn separates(c: u8) -> bool
    ensures { result ≡ separates_of c }
{
    is_blank(c) || c == b'\n'
}

// The byte of two digits.
fn byte_of(high: u8, low: u8) -> u8
    ensures { result ≡ byte_of high low }
{
    high % 16 * 16 + low % 16
}

// A character between two bytes.
#[tactic(auto, unfolding(crate::specs::Text::in_gap))]
fn in_gap(c: u8) -> Turn
    ensures { result ≡ in_gap c }
{
    if let Some(digit) = digit_of(Base::Hex, c) {
        Turn::Goes(Within::Byte(digit))
    } else if separates(c) {
        Turn::Goes(Within::Gap)
    } else if c == b'#' {
        Turn::Goes(Within::Comment)
    } else {
        Turn::Bad
    }
}

// A character in a byte, after its first digit.
#[tactic(auto, unfolding(crate::specs::Text::in_byte))]
fn in_byte(high: u8, c: u8) -> Turn
    ensures { result ≡ in_byte high c }
{
    match digit_of(Base::Hex, c) {
        Some(low) => Turn::Completes(byte_of(high, low)),
        None => Turn::Bad,
    }
}

// A character in a comment, which the line's end ends.
#[tactic(auto, unfolding(crate::specs::Text::in_comment))]
fn in_comment(c: u8) -> Turn
    ensures { result ≡ in_comment c }
{
    match c {
        b'\n' => Turn::Goes(Within::Gap),
        _ => Turn::Goes(Within::Comment),
    }
}

// What a character does where it stands.
#[tactic(auto, unfolding(crate::specs::Text::turn_of))]
fn turn_at(within: Within, c: u8) -> Turn
    ensures { result ≡ turn_of within c }
{
    match within {
        Within::Gap => in_gap(c),
        Within::Byte(high) => in_byte(high, c),
        Within::Comment => in_comment(c),
    }
}

// ---- Packing

// Where a text starts.
pub fn start() -> Packing
    ensures { result ≡ start_of }
{
    Packing {
        within: Within::Gap,
        bad: false,
        line: 1,
        column: 1,
    }
}

fn is_between(within: Within) -> bool
    ensures { result ≡ is_between within }
{
    match within {
        Within::Gap => true,
        Within::Byte(_) => false,
        Within::Comment => true,
    }
}

// Whether a text may end here: no character was bad, and no byte lacks its second digit.
pub fn is_whole(p: Packing) -> bool
    ensures { result ≡ is_whole p }
{
    !p.bad && is_between(p.within)
}

// Kept: lines and columns are counted modulo 2^64, as specs/Packing.one_more says.
fn one_more(n: u64) -> u64
    ensures { result ≡ one_more n }
{
    n.wrapping_add(1)
}

// Past a character that isn't bad, and then within this.
#[tactic(auto, unfolding(crate::specs::Packing::past))]
fn past(c: u8, within: Within, p: Packing) -> Packing
    ensures { result ≡ past_of c within p }
{
    if c == b'\n' {
        Packing {
            within,
            bad: false,
            line: one_more(p.line),
            column: 1,
        }
    } else {
        Packing {
            within,
            bad: false,
            line: p.line,
            column: one_more(p.column),
        }
    }
}

// At a bad character.
#[tactic(auto, unfolding(crate::specs::Packing::spoiled))]
fn spoil(p: Packing) -> Packing
    ensures { result ≡ spoiled p }
{
    Packing { bad: true, ..p }
}

// A turn, where so many bytes fit the room.
#[tactic(auto, unfolding(crate::specs::Packing::step_by))]
fn step_by(turn: Turn, p: Packing, c: u8, room: usize) -> Step
    ensures { result ≡ step_by turn p c room }
{
    match turn {
        Turn::Goes(within) => Step::Passes(past(c, within, p)),
        Turn::Completes(b) => {
            if room == 0 {
                Step::Stops(p)
            } else {
                Step::Puts(b, past(c, Within::Gap, p))
            }
        }
        Turn::Bad => Step::Stops(spoil(p)),
    }
}

// Nothing follows a bad character.
#[tactic(auto, unfolding(crate::specs::Packing::step_of))]
fn step_at(p: Packing, c: u8, room: usize) -> Step
    ensures { result ≡ step_of p c room }
{
    if p.bad {
        Step::Stops(p)
    } else {
        step_by(turn_at(p.within, c), p, c, room)
    }
}

// Packs a piece of text into the room, as far as there is room, and says how far the text is packed.
pub fn pack(first: Packing, text: &[u8], room: &mut [u8]) -> Packed
    ensures { left result room.new ≡ leaves first text.now room.old }
{
    let mut p = first;
    let mut w: usize = 0;
    for (i, c) in text.iter().enumerate() {
        match step_at(p, *c, room.len() - w) {
            Step::Stops(after) => {
                return Packed {
                    after,
                    consumed: i,
                    written: w,
                };
            }
            Step::Passes(after) => p = after,
            Step::Puts(b, after) => {
                room[w] = b;
                w += 1;
                p = after;
            }
        }
    }
    Packed {
        after: p,
        consumed: text.len(),
        written: w,
    }
}
