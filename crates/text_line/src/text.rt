// A page, and texts and numbers put on it.
ghost use Rattle.std.specs.Prelude.{◌≡◌, ◌/◌, ◌%◌, ◌^◌, cond, [], ◌∷◌, length};
ghost use Rattle.text_line.specs.Page.{page_over, put, written};
ghost use Rattle.text_line.specs.Text.{glyph_of, hex_of, decimal_of, three_of, six_of, grouped_of, named, text_if, short_margin, margin_of, column_of, spaced_of, bytes_of};

// The longest line that is written.
pub const LINE: usize = 1024;

// The longest text that is put at once.
pub const PAGE: usize = 131072;

// A line that is lent, and the index at which the next text goes. What stands before it stays, and so does what no text comes to.
#[derive(Drop)]
pub struct Page<'a> {
    line: &'a mut [u8],
    at: usize,
}

// The character of a digit below 16, in upper case.
fn glyph(n: u8) -> u8
    ensures { result ≡ glyph_of n }
{
    if n < 10 {
        0x30 + n
    } else if n < 16 {
        0x37 + n
    } else {
        0x3F
    }
}

// The digit of a number at a place in hex, counted from the last.
fn hex_digit(n: u64, place: usize) -> u8
    ensures { result ≡ n / 16 ^ place % 16 }
{
    if place < 16 {
        ((n >> (4 * place)) % 16) as u8
    } else {
        0
    }
}

impl<'a> Page<'a> {
    // The page over a line, whose next text goes to an index.
    pub fn over(line: &'a mut [u8], at: usize) -> Page<'a>
        ensures { result ≡ page_over line.entry at }
    {
        Page { line, at }
    }

    // The page is given up: the index at which the next text would go. What stands in the line stays.
    pub fn close(self) -> usize
        ensures line { self.exit.0.now ≡ self.entry.line.now }
        ensures at { result ≡ self.entry.at }
    {
        self.at
    }

    // The index at which the next text goes.
    pub fn at(&self) -> usize
        ensures { result ≡ self.now.at }
    {
        self.at
    }

    // What stands on the page.
    pub fn text(&self) -> &[u8]
        ensures { result.now ≡ written self.now }
    {
        &self.line[..self.at.min(self.line.len())]
    }

    pub fn len(&self) -> usize
        ensures { result ≡ length (written self.now) }
    {
        self.text().len()
    }

    // The next text goes to the front again.
    pub fn clear(&mut self)
        ensures { self.new ≡ page_over self.old.line 0 }
    {
        self.at = 0;
    }

    pub fn put_byte(&mut self, b: u8)
        ensures { self.new ≡ put (b ∷ []) self.old }
    {
        if self.at < self.line.len() {
            self.line[self.at] = b;
            self.at += 1;
        }
    }

    pub fn put_text(&mut self, text: &[u8])
        ensures { self.new ≡ put text.now self.old }
    {
        let line = &mut *self.line;
        let mut at = self.at;
        for b in text {
            if at < line.len() {
                line[at] = *b;
                at += 1;
            }
        }
        self.at = at;
    }

    // A number in decimal.
    pub fn put_decimal(&mut self, n: u64)
        ensures { self.new ≡ put (decimal_of n) self.old }
    {
        let mut digits = [0u8; 20];
        let k = io::decimal(n, &mut digits);
        self.put_text(&digits[..k]);
    }

    // The last k hex digits of a number.
    pub fn put_hex(&mut self, k: usize, n: u64)
        ensures { self.new ≡ put (hex_of k n) self.old }
    {
        for i in 0..k {
            let place = k - 1 - i;
            self.put_byte(glyph(hex_digit(n, place)));
        }
    }

    // The last three decimal digits, zeros in front.
    #[tactic(auto, using(crate::proofs::Putting::putting), unfolding(crate::specs::Text::three_of))]
    pub fn put_three(&mut self, n: u64)
        ensures { self.new ≡ put (three_of n) self.old }
    {
        self.put_byte(glyph((n / 100 % 10) as u8));
        self.put_byte(glyph((n / 10 % 10) as u8));
        self.put_byte(glyph((n % 10) as u8));
    }

    // The last six.
    #[tactic(auto, using(crate::proofs::Putting::putting), unfolding(crate::specs::Text::six_of))]
    pub fn put_six(&mut self, n: u64)
        ensures { self.new ≡ put (six_of n) self.old }
    {
        self.put_three(n / 1000);
        self.put_three(n);
    }

    // A number in decimal, with a comma before each three digits from the right.
    #[tactic(auto, using(crate::proofs::Putting::putting), unfolding(crate::specs::Text::grouped_from))]
    pub fn put_grouped(&mut self, n: u64)
        ensures { self.new ≡ put (grouped_of n) self.old }
    {
        if n < 1000 {
            self.put_decimal(n);
        } else {
            self.put_grouped(n / 1000);
            self.put_text(b",");
            self.put_three(n);
        }
    }

    // A name and a number after it.
    pub fn put_named(&mut self, name: &[u8], n: u64)
        ensures { self.new ≡ put (named name.now n) self.old }
    {
        self.put_text(name);
        self.put_decimal(n);
    }

    // One of two texts.
    pub fn put_either(&mut self, first: bool, a: &[u8], b: &[u8])
        ensures { self.new ≡ put (cond first a.now b.now) self.old }
    {
        self.put_text(if first { a } else { b });
    }

    // The text where it applies.
    #[tactic(auto, using(crate::proofs::Putting::putting), unfolding(crate::specs::Text::text_if))]
    pub fn put_if(&mut self, applies: bool, text: &[u8])
        ensures { self.new ≡ put (text_if applies text.now) self.old }
    {
        if applies {
            self.put_text(text);
        }
    }

    // Blanks before a number below 10,000, as many as three digits need.
    #[tactic(auto, using(crate::proofs::Putting::putting), unfolding(crate::specs::Text::short_margin))]
    fn put_short_margin(&mut self, n: u64)
        ensures { self.new ≡ put (short_margin n) self.old }
    {
        self.put_if(n < 10, b" ");
        self.put_if(n < 100, b" ");
        self.put_if(n < 1000, b" ");
    }

    // Blanks before a number, so that numbers up to eight digits stand below one another.
    #[tactic(auto, using(crate::proofs::Putting::putting), unfolding(crate::specs::Text::margin_of))]
    fn put_margin(&mut self, n: u64)
        ensures { self.new ≡ put (margin_of n) self.old }
    {
        self.put_short_margin(n);
        self.put_if(n < 10000, b" ");
        self.put_if(n < 100000, b" ");
        self.put_if(n < 1000000, b" ");
        self.put_if(n < 10000000, b" ");
    }

    // A number in a column of eight.
    #[tactic(auto, using(crate::proofs::Putting::putting), unfolding(crate::specs::Text::column_of))]
    pub fn put_column(&mut self, n: u64)
        ensures { self.new ≡ put (column_of n) self.old }
    {
        self.put_margin(n);
        self.put_decimal(n);
    }

    // A byte in two hex digits, after a blank where another stands before it.
    #[tactic(auto, using(crate::proofs::Putting::putting), unfolding(crate::specs::Text::spaced_of))]
    fn put_spaced(&mut self, later: bool, b: u8)
        ensures { self.new ≡ put (spaced_of later b) self.old }
    {
        self.put_if(later, b" ");
        self.put_hex(2, u64::from(b));
    }

    // Bytes in two hex digits each, with blanks between them.
    pub fn put_bytes(&mut self, bytes: &[u8])
        ensures { self.new ≡ put (bytes_of bytes.now) self.old }
    {
        for (i, b) in bytes.iter().enumerate() {
            self.put_spaced(i > 0, *b);
        }
    }
}
