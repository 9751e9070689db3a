// Text of lines: reading words, bytes in hex and decimal numbers, and putting text into a lent buffer. Each `put` writes from `at` on and gives the place
// past it; what doesn't fit is left out whole, so no buffer is too short to lend.
#![tactic(auto)]

ghost use Rattle.std.specs.Prelude.{◌≡◌, ◌∷◌, [], ◌+◌, ◌*◌, ◌≤◌, ◌<◌, leb, length, take};
ghost use Rattle.std.specs.List.{prefix_len};
ghost use Rattle.io.specs.Counts.{IsPrefixLen};
ghost use Rattle.wire.specs.Wire.{pasted, joined};
ghost use Rattle.text.specs.Text.{blank, in_word, other, past_blanks, digit_of, digit_at, hex_run, Takes, same_text, sheet, hex_digit, hex_of, hexes, spaced, decimal, number, numbers};
ghost use Rattle.text.specs.Pages.{sheet_of, Puts};
ghost use Rattle.text.specs.Numbers.{digits_at, number_at};

// ---- reading

// A space or a tab.
pub fn is_blank(c: u8) -> bool
    ensures { result ≡ blank c }
{
    c == b' ' || c == b'\t'
}

// How many blanks are in front.
fn blanks_len(s: &[u8]) -> usize
    ensures value { result ≡ prefix_len blank s.now }
    ensures within { result ≤ length s.now }
{
    s.iter().take_while(|c| is_blank(**c)).count()
}

// The first place from `from` on that holds no blank, or the end. `past_blanks` isn't inlined:
// in `main` of `standin` the compiler made a loop of more instructions from it.
#[tactic(auto, unfolding(crate::specs::Text::past_blanks))]
#[inline(never)]
pub fn past_blanks(s: &[u8], from: usize) -> usize
    ensures value { result ≡ past_blanks s.now from }
    ensures upper_bound { result ≤ length s.now }
{
    if s.len() < from {
        return s.len();
    }
    from + blanks_len(&s[from..])
}

// How many bytes stand before the first blank.
pub fn word_len(s: &[u8]) -> usize
    ensures value { result ≡ prefix_len in_word s.now }
    ensures prefix_len { IsPrefixLen result s.now }
{
    s.iter().take_while(|c| !is_blank(**c)).count()
}

// The first place of `c`, or the length.
pub fn find(s: &[u8], c: u8) -> usize
    ensures value { result ≡ prefix_len (other c) s.now }
    ensures prefix_len { IsPrefixLen result s.now }
{
    s.iter().take_while(|x| **x != c).count()
}

// Whether two texts are equal.
pub fn same(a: &[u8], b: &[u8]) -> bool
    ensures { result ≡ same_text a.now b.now }
{
    a == b
}

// The number that a hex digit of either case stands for, 16 where it is none.
fn digit(c: u8) -> u8
    ensures value { result ≡ digit_of c }
    ensures upper_bound { result ≤ 16 }
{
    if c < b'0' {
        return 16;
    }
    if c <= b'9' {
        return c - b'0';
    }
    if c < b'A' {
        return 16;
    }
    if c <= b'F' {
        return c - b'A' + 10;
    }
    if c < b'a' {
        return 16;
    }
    if c <= b'f' {
        return c - b'a' + 10;
    }
    16
}

// The digit at a place; there is none past the end.
fn digit_at(s: &[u8], at: usize) -> u8
    ensures value { result ≡ digit_at s.now at }
    ensures upper_bound { result ≤ 16 }
{
    if at < s.len() {
        return digit(s[at]);
    }
    16
}

// What is wrong in a run of bytes, with its column.
#[derive(Clone, Copy, PartialEq, Eq)]
pub enum Fault {
    Digit(usize),
    Over(usize),
}

// How many bytes were read, and what was wrong then.
#[derive(Clone, Copy, PartialEq, Eq)]
pub struct Taken {
    pub count: usize,
    pub fault: Option<Fault>,
}

// Reads bytes of two hex digits each, blanks before, between and after them, from `from` to the end of `s`, into `out`.
pub fn take_bytes(s: &[u8], from: usize, out: &mut [u8]) -> Taken
    ensures takes { Takes (hex_run s.now from (length out.old)) out.old out.new result.count result.fault }
    ensures prefix_len { IsPrefixLen result.count out.new }
{
    let mut n = 0;
    let mut at = from;
    while at < s.len() {
        let column = at + 1;
        if is_blank(s[at]) {
            at = column;
            continue;
        }
        if out.len() <= n {
            return Taken {
                count: n,
                fault: Some(Fault::Over(column)),
            };
        }
        let high = digit(s[at]);
        if 15 < high {
            return Taken {
                count: n,
                fault: Some(Fault::Digit(column)),
            };
        }
        let low = digit_at(s, column);
        if 15 < low {
            return Taken {
                count: n,
                fault: Some(Fault::Digit(column + 1)),
            };
        }
        out[n] = high * 16 + low;
        n += 1;
        at = column + 1;
    }
    Taken {
        count: n,
        fault: None,
    }
}

// A number, and the place past its digits.
#[derive(Clone, Copy, PartialEq, Eq)]
pub struct Number {
    pub value: u64,
    pub past: usize,
}

// Why a number isn't taken: there is none, or it is over the most.
#[derive(Clone, Copy, PartialEq, Eq)]
pub enum NumberError {
    Missing,
    TooGreat,
}

// Whether a number with one digit more is at most `most`.
fn fits(value: u64, digit: u8, most: u64) -> bool
    ensures { result ≡ leb (value * 10 + digit) most }
{
    if most / 10 < value {
        return false;
    }
    digit as u64 <= most - value * 10
}

// Reads the digits from `at` on. The first one that makes the number too great ends it: digits more make no number less.
fn read_digits(s: &[u8], at: usize, most: u64) -> Result<Number, NumberError>
    ensures { result ≡ digits_at s.now at most }
{
    let mut value: u64 = 0;
    let mut i = at;
    while i < s.len() {
        let next = digit(s[i]);
        if 9 < next {
            return Ok(Number { value, past: i });
        }
        if !fits(value, next, most) {
            return Err(NumberError::TooGreat);
        }
        value = value * 10 + next as u64;
        i += 1;
    }
    Ok(Number { value, past: i })
}

// The decimal number at a place, at most `most`.
pub fn number_at(s: &[u8], at: usize, most: u64) -> Result<Number, NumberError>
    ensures { result ≡ number_at s.now at most }
{
    if 9 < digit_at(s, at) {
        return Err(NumberError::Missing);
    }
    read_digits(s, at, most)
}

// ---- writing

// A lent buffer that text is put into, and the place past what was put last. What doesn't fit is
// left out whole, so no buffer is too short to lend.
#[derive(Drop)]
pub struct Page<'a> {
    pub out: &'a mut [u8],
    pub past: usize,
}

// The capital digit for a number below 16.
fn glyph(d: u8) -> u8
    requires { d < 16 }
    ensures { result ≡ hex_digit d }
{
    if d < 10 { b'0' + d } else { b'A' + (d - 10) }
}

// Bytes in hex where all of them have room.
fn spell(out: &mut [u8], at: usize, s: &[u8])
    requires { at + 2 * length s.now ≤ length out.old }
    ensures { out.new ≡ pasted at (joined (hexes s.now)) out.old }
{
    let mut end = at;
    for b in s {
        wire::copy(out, end, &[glyph(*b / 16), glyph(*b % 16)]);
        end += 2;
    }
}

// The same, each byte after a blank.
fn spell_apart(out: &mut [u8], at: usize, s: &[u8])
    requires { at + 3 * length s.now ≤ length out.old }
    ensures { out.new ≡ pasted at (joined (spaced s.now)) out.old }
{
    let mut end = at;
    for b in s {
        wire::copy(out, end, &[b' ', glyph(*b / 16), glyph(*b % 16)]);
        end += 3;
    }
}

impl<'a> Page<'a> {
    pub fn new(out: &'a mut [u8]) -> Page<'a>
        ensures same_buffer { result.out.ghost_name ≡ out.entry.ghost_name }
        ensures empty { sheet_of result ≡ sheet out.old 0 }
    {
        Page { out, past: 0 }
    }

    pub fn put(&mut self, s: &[u8])
        ensures { Puts self.old self.new (s.now ∷ []) }
    {
        if self.out.len() < self.past {
            self.past = self.out.len();
        } else if s.len() <= self.out.len() - self.past {
            wire::copy(self.out, self.past, s);
            self.past += s.len();
        }
    }

    // A byte's two digits.
    pub fn put_hex(&mut self, b: u8)
        ensures { Puts self.old self.new (hex_of b ∷ []) }
    {
        self.put(&[glyph(b / 16), glyph(b % 16)]);
    }

    // Bytes in hex with nothing between.
    pub fn put_hexes(&mut self, s: &[u8])
        ensures { Puts self.old self.new (hexes s.now) }
    {
        let at = self.past;
        if at <= self.out.len() && s.len() <= (self.out.len() - at) / 2 {
            spell(self.out, at, s);
            self.past = at + 2 * s.len();
            return;
        }
        for b in s {
            self.put_hex(*b);
        }
    }

    // Bytes in hex, each after a blank.
    pub fn put_bytes(&mut self, s: &[u8])
        ensures { Puts self.old self.new (spaced s.now) }
    {
        let at = self.past;
        if at <= self.out.len() && s.len() <= (self.out.len() - at) / 3 {
            spell_apart(self.out, at, s);
            self.past = at + 3 * s.len();
            return;
        }
        for b in s {
            self.put(b" ");
            self.put_hex(*b);
        }
    }

    pub fn put_decimal(&mut self, n: u64)
        ensures { Puts self.old self.new (decimal n ∷ []) }
    {
        let mut digits = [0; 20];
        let k = io::decimal(n, &mut digits);
        self.put(&digits[..k]);
    }

    // A number in decimal after a blank.
    pub fn put_number(&mut self, n: u64)
        ensures { Puts self.old self.new (number n) }
    {
        self.put(b" ");
        self.put_decimal(n);
    }

    // Bytes in decimal, each after a blank.
    pub fn put_numbers(&mut self, s: &[u8])
        ensures { Puts self.old self.new (numbers s.now) }
    {
        for b in s {
            self.put_number(u64::from(*b));
        }
    }

    // What was put, and what was there before it.
    pub fn text(&self) -> &[u8]
        ensures { result.now ≡ take self.now.past self.now.out.now }
    {
        &self.out[..self.past.min(self.out.len())]
    }
}
