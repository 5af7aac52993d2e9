// A line of a sheet, read from its bytes.
ghost use Rattle.std.specs.Prelude.{◌≡◌, false, ◌+◌, ◌≤◌};
ghost use Rattle.sheet_grammar.specs.Layout.{byte_at, digits_at, number_fits, next_place, number_up_to, number_at, is_unit_letter, unit_of, unit_bytes, unit_at, line_from, no_line, number_in, unit_in, fault_in};

use sheet_grammar::{Digits, Fault, LineRead, NumberRead, SheetLine, UnitRead};
use text_fields::{Base, digit_of};
use times::{Unit, claimed};

// A number has 1 to 10 digits.
const MOST_DIGITS: usize = 10;

// The byte at a place; 0, which no line has, past the end.
fn byte_at(s: &[u8], at: usize) -> u8
    ensures { result ≡ byte_at at s.now }
{
    s.get(at).copied().unwrap_or(0)
}

// The digits at a place, one more than `most` at the most.
fn digits_at(s: &[u8], at: usize, most: usize) -> Digits
    requires { most ≤ 16 }
    ensures { result ≡ digits_at most at s.now }
{
    let mut count: usize = 0;
    let mut number: u64 = 0;
    for i in at..s.len() {
        match digit_of(Base::Decimal, s[i]) {
            Some(digit) if count <= most => {
                number = number * 10 + u64::from(digit);
                count += 1;
            }
            _ => return Digits { count, number },
        }
    }
    Digits { count, number }
}

// Whether so many digits are a number, with this byte after them.
#[tactic(auto, unfolding(sheet_grammar::specs::Layout::number_fits))]
fn number_fits(most: usize, count: usize, after: u8) -> bool
    ensures { result ≡ number_fits most count after }
{
    1 <= count && count <= most && after == b' '
}

// The first byte that is wrong: the one after the digits, or the first digit too many.
fn first_wrong(most: usize, at: usize, count: usize) -> usize
    requires { at + count ≤ 18446744073709551615 }
    ensures { result ≡ next_place most at count false }
{
    if count <= most { at + count } else { at + most }
}

// A number of 1 to `most` digits at a place, and the space after it.
pub fn number_up_to(s: &[u8], at: usize, most: usize) -> NumberRead
    requires { most ≤ 16 }
    ensures { result ≡ number_up_to most at s.now }
{
    let d = digits_at(s, at, most);
    let count = d.count;
    let number = d.number;
    let end = at + count;
    if number_fits(most, count, byte_at(s, end)) {
        return NumberRead {
            fits: true,
            number: number,
            next: end + 1,
        };
    }
    let next = first_wrong(most, at, count);
    NumberRead {
        fits: false,
        number: number,
        next: next,
    }
}

// A number of a sheet at a place, and the space after it.
fn number_at(s: &[u8], at: usize) -> NumberRead
    ensures { result ≡ number_at at s.now }
{
    number_up_to(s, at, MOST_DIGITS)
}

// 'n', 'u' or 'm'.
fn is_unit_letter(b: u8) -> bool
    ensures { result ≡ is_unit_letter b }
{
    b == b'n' || b == b'u' || b == b'm'
}

fn unit_of(b: u8) -> Unit
    ensures { result ≡ unit_of b }
{
    if b == 0x6D {
        return Unit::Ms;
    }
    if b == 0x75 { Unit::Us } else { Unit::Ns }
}

// How many of the three bytes of a unit, 's' and 0Ah stand at a place.
fn unit_bytes(s: &[u8], at: usize) -> usize
    ensures { result ≡ unit_bytes at s.now }
{
    if !is_unit_letter(byte_at(s, at)) {
        return 0;
    }
    if byte_at(s, at + 1) != 0x73 {
        return 1;
    }
    if byte_at(s, at + 2) == 0x0A { 3 } else { 2 }
}

// A unit at a place, and the byte 0Ah after it.
pub fn unit_at(s: &[u8], at: usize) -> UnitRead
    ensures { result ≡ unit_at at s.now }
{
    let n = unit_bytes(s, at);
    UnitRead {
        fits: n == 3,
        unit: unit_of(byte_at(s, at)),
        next: at + n,
    }
}

// What is read where there is no line.
pub fn no_line() -> LineRead
    ensures { result ≡ no_line }
{
    let none = claimed(0, Unit::Ns);
    let line = SheetLine {
        slot: 0,
        reset: none,
        dl_up: none,
        flr: none,
        d3hot: none,
    };
    LineRead {
        fits: false,
        line: line,
        size: 0,
    }
}

// The line in front of a text.
pub fn line_of(s: &[u8]) -> LineRead
    ensures { result ≡ line_from s.now }
{
    let slot = number_at(s, 0);
    let reset = number_at(s, slot.next);
    let dl_up = number_at(s, reset.next);
    let flr = number_at(s, dl_up.next);
    let d3hot = number_at(s, flr.next);
    let u = unit_at(s, d3hot.next);
    if !(slot.fits & reset.fits & dl_up.fits & flr.fits & d3hot.fits & u.fits) {
        return no_line();
    }
    let unit = u.unit;
    let line = SheetLine {
        slot: slot.number,
        reset: claimed(reset.number, unit),
        dl_up: claimed(dl_up.number, unit),
        flr: claimed(flr.number, unit),
        d3hot: claimed(d3hot.number, unit),
    };
    LineRead {
        fits: true,
        line: line,
        size: u.next,
    }
}

// ---- Single words, as people type them

// Whether the whole text is a number of 1 to 10 digits, and the number.
pub fn number_in(s: &[u8]) -> NumberRead
    ensures { result ≡ number_in s.now }
{
    let d = digits_at(s, 0, MOST_DIGITS);
    let n = s.len();
    NumberRead {
        fits: (1 <= d.count) & (d.count <= MOST_DIGITS) & (d.count == n),
        number: d.number,
        next: d.count,
    }
}

// Whether the whole text is ns, us or ms, and which.
pub fn unit_in(s: &[u8]) -> UnitRead
    ensures { result ≡ unit_in s.now }
{
    let first = byte_at(s, 0);
    let n = s.len();
    UnitRead {
        fits: is_unit_letter(first) & (byte_at(s, 1) == 0x73) & (n == 2),
        unit: unit_of(first),
        next: n,
    }
}

// ---- What is wrong

fn fault(field: usize, place: usize) -> Fault
    ensures { result ≡ record { field = field; place = place } }
{
    Fault {
        field: field,
        place: place,
    }
}

// Where a text departs from the layout of a line.
pub fn fault_in(s: &[u8]) -> Fault
    ensures { result ≡ fault_in s.now }
{
    let slot = number_at(s, 0);
    if !slot.fits {
        return fault(0, slot.next);
    }
    let reset = number_at(s, slot.next);
    if !reset.fits {
        return fault(1, reset.next);
    }
    let dl_up = number_at(s, reset.next);
    if !dl_up.fits {
        return fault(2, dl_up.next);
    }
    let flr = number_at(s, dl_up.next);
    if !flr.fits {
        return fault(3, flr.next);
    }
    let d3hot = number_at(s, flr.next);
    if !d3hot.fits {
        return fault(4, d3hot.next);
    }
    let u = unit_at(s, d3hot.next);
    fault(5, u.next)
}
