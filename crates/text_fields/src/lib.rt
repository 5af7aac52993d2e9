// Text: lines, the fields of a line, and numbers in fields.
#![tactic(auto)]

ghost use Rattle.std.specs.Prelude.{◌≡◌, ℕ, Bool};
ghost use Rattle.text_fields.specs.Text.{in_line, is_blank, in_field, TellsBy, run_end, field_start, field_end, field, no_field, same, base_of, digit_of, width_allowed, number_of, number_at};

// The base of a number.
#[derive(Clone, Copy, PartialEq, Eq)]
pub enum Base {
    Decimal,
    Hex,
}

// How a number is written: its base, and how many digits it may have.
#[derive(Clone, Copy)]
pub struct Numeral {
    pub base: Base,
    pub least: usize,
    pub most: usize,
}

// ---- Lines and fields

#[tactic(auto, unfolding(crate::specs::Text::in_line))]
fn in_line(b: u8) -> bool
    ensures { result ≡ in_line b }
{
    b != b'\n'
}

// Spaces, tabs and carriage returns.
#[tactic(auto, unfolding(crate::specs::Text::is_blank))]
pub fn is_blank(b: u8) -> bool
    ensures { result ≡ is_blank b }
{
    b == b' ' || b == b'\t' || b == b'\r'
}

#[tactic(auto, unfolding(crate::specs::Text::in_field))]
fn in_field(b: u8) -> bool
    ensures { result ≡ in_field b }
{
    !(is_blank(b) || b == b'#')
}

// The first place from `at` on whose byte doesn't pass the test, or the end.
fn run_end<F: Fn(u8) -> bool>(text: &[u8], at: usize, passes: F) -> usize
    requires { F.IsAlwaysCallable passes }
    ensures { (p : ℕ → Bool) → TellsBy (F.post passes) p → result ≡ run_end p at text.now }
{
    for i in at..text.len() {
        if !passes(text[i]) {
            return i;
        }
    }
    at.max(text.len())
}

// The end of the line that goes on at `at`.
pub fn line_end(text: &[u8], at: usize) -> usize
    ensures { result ≡ run_end in_line at text.now }
{
    run_end(text, at, in_line)
}

// The end of the blanks that stand at `at`.
fn blank_end(line: &[u8], at: usize) -> usize
    ensures { result ≡ run_end is_blank at line.now }
{
    run_end(line, at, is_blank)
}

// The end of the field that stands at `at`.
fn field_end(line: &[u8], at: usize) -> usize
    ensures { result ≡ run_end in_field at line.now }
{
    run_end(line, at, in_field)
}

// Where field k starts.
#[tactic(auto, unfolding(crate::specs::Text::field_start))]
fn field_start(line: &[u8], k: usize) -> usize
    ensures { result ≡ field_start k line.now }
{
    let mut at = blank_end(line, 0);
    for _ in 0..k {
        at = blank_end(line, field_end(line, at));
    }
    at
}

// Whether the line has no field k.
pub fn no_field(line: &[u8], k: usize) -> bool
    ensures { result ≡ no_field k line.now }
{
    let from = field_start(line, k);
    from == field_end(line, from)
}

// Whether field k is this word.
pub fn field_is(line: &[u8], k: usize, word: &[u8]) -> bool
    ensures { result ≡ same (field k line.now) word.now }
{
    let from = field_start(line, k);
    let to = field_end(line, from);
    &line[from..to] == word
}

// ---- Numbers

fn base_of(base: Base) -> u32
    ensures { result ≡ base_of base }
{
    match base {
        Base::Decimal => 10,
        Base::Hex => 16,
    }
}

// The digit that a byte is.
#[tactic(auto, unfolding(crate::specs::Text::digit_of))]
pub fn digit_of(base: Base, b: u8) -> Option<u8>
    ensures { result ≡ digit_of base b }
{
    match b {
        b'0'..=b'9' => Some(b - b'0'),
        b'A'..=b'F' if base == Base::Hex => Some(b - b'A' + 10),
        b'a'..=b'f' if base == Base::Hex => Some(b - b'a' + 10),
        _ => None,
    }
}

// Whether a number of this form may have n digits.
#[tactic(auto, unfolding(crate::specs::Text::width_allowed))]
fn width_allowed(form: Numeral, n: usize) -> bool
    ensures { result ≡ width_allowed form n }
{
    form.least <= n && n <= form.most && n <= 8
}

// The number that these bytes are.
#[tactic(auto, unfolding(crate::specs::Text::number_of), using(crate::proofs::Numbers::value_stops))]
fn number_of(s: &[u8], form: Numeral) -> Option<u32>
    ensures { result ≡ number_of form s.now }
{
    if !width_allowed(form, s.len()) {
        return None;
    }
    let base = base_of(form.base);
    let mut value: u32 = 0;
    for b in s {
        let digit = digit_of(form.base, *b)?;
        value = value * base + u32::from(digit);
    }
    Some(value)
}

// The number that field k is.
pub fn number_at(line: &[u8], k: usize, form: Numeral) -> Option<u32>
    ensures { result ≡ number_at form k line.now }
{
    let from = field_start(line, k);
    let to = field_end(line, from);
    number_of(&line[from..to], form)
}
