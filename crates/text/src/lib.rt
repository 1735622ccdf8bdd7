// Lines of text for people, put together in a lent buffer: words, bytes in hexadecimal, numbers. A
// piece that has no room is left out whole. Each call promises the place where the line goes on and
// every byte of the buffer.
#![tactic(auto)]

ghost use Rattle.std.specs.Prelude.{◌<◌, ◌≡◌, IsOk, is_ok, take};
ghost use Rattle.text.specs.Text.{line, line_of, Writes, has_room, typed, glyph_of, hex_of, number_of, decimal_of, typed_bytes};

use std::fmt;

// A line in the making: the buffer, and the place where it goes on.
#[derive(Drop)]
pub struct Line<'a> {
    pub buffer: &'a mut [u8],
    pub end: usize,
}

// A digit below sixteen, as a large letter where it is no number.
fn glyph(d: u8) -> u8
    requires { d < 16 }
    ensures { result ≡ glyph_of d }
{
    if d < 10 { 48 + d } else { 55 + d }
}

impl<'a> Line<'a> {
    // An empty line at the start of a buffer.
    pub fn new(buffer: &'a mut [u8]) -> Line<'a>
        ensures empty { line_of result ≡ line buffer.old 0 }
        ensures same_buffer { result.buffer.ghost_name ≡ buffer.entry.ghost_name }
    {
        Line { buffer, end: 0 }
    }

    // The line so far; the whole buffer where the line is said to go on behind it.
    pub fn as_bytes(&self) -> &[u8]
        ensures bytes { result.now ≡ take self.now.end self.now.buffer.now }
        ensures place { result.ref_ptr ≡ self.now.buffer.ref_ptr }
    {
        &self.buffer[..self.end.min(self.buffer.len())]
    }

    fn has_room(&self, piece: &[u8]) -> bool
        ensures { result ≡ has_room piece.now (line_of self.now) }
    {
        self.end <= self.buffer.len() && piece.len() <= self.buffer.len() - self.end
    }

    // Puts a piece of text.
    #[tactic(auto, unfolding(crate::specs::Text::typed))]
    pub fn put(&mut self, piece: &[u8])
        ensures typed { line_of self.new ≡ typed piece.now (line_of self.old) }
        ensures same_buffer { self.new.buffer.ghost_name ≡ self.old.buffer.ghost_name }
    {
        if self.has_room(piece) {
            self.buffer[self.end..self.end + piece.len()].copy_from_slice(piece);
            self.end += piece.len();
        }
    }

    // Puts a byte as two hexadecimal digits.
    pub fn put_hex(&mut self, b: u8)
        ensures typed { line_of self.new ≡ typed (hex_of b) (line_of self.old) }
        ensures same_buffer { self.new.buffer.ghost_name ≡ self.old.buffer.ghost_name }
    {
        self.put(&[glyph(b / 16), glyph(b % 16)]);
    }

    // Puts a small number in decimal. `write!` does too, and says less: this one's promise settles every byte
    // (docs/PROMISES.md), as the next one's does.
    pub fn put_number(&mut self, n: u8)
        ensures typed { line_of self.new ≡ typed (number_of n) (line_of self.old) }
        ensures same_buffer { self.new.buffer.ghost_name ≡ self.old.buffer.ghost_name }
    {
        if n < 10 {
            self.put(&[glyph(n)]);
        } else if n < 100 {
            self.put(&[glyph(n / 10), glyph(n % 10)]);
        } else {
            self.put(&[glyph(n / 100), glyph(n / 10 % 10), glyph(n % 10)]);
        }
    }

    // Puts a number in decimal: its digits come from the last to the first.
    pub fn put_decimal(&mut self, n: u32)
        ensures typed { line_of self.new ≡ typed (decimal_of n) (line_of self.old) }
        ensures same_buffer { self.new.buffer.ghost_name ≡ self.old.buffer.ghost_name }
    {
        let mut digits = [0; 10];
        let mut left = n;
        for i in (0..10).rev() {
            digits[i] = glyph((left % 10) as u8);
            if left < 10 {
                return self.put(&digits[i..]);
            }
            left /= 10;
        }
        self.put(&digits);
    }

    // Puts bytes in hexadecimal with a blank between two, or a dash where there are none.
    pub fn put_bytes(&mut self, src: &[u8])
        ensures typed { line_of self.new ≡ typed_bytes src.now (line_of self.old) }
        ensures same_buffer { self.new.buffer.ghost_name ≡ self.old.buffer.ghost_name }
    {
        let [first, rest @ ..] = src else {
            return self.put(b"-");
        };
        self.put_hex(*first);
        for b in rest {
            self.put(b" ");
            self.put_hex(*b);
        }
    }
}

impl fmt::Write for Line<'_> {
    ghost write_str_gives = { Writes };

    // Puts a text; where it has no room it is left out whole, and this says so.
    #[tactic(auto, unfolding(crate::specs::Text::typed))]
    fn write_str(&mut self, s: &str) -> fmt::Result
        ensures ok { IsOk result → Writes self.old s.now self.new }
        ensures answer { is_ok result ≡ has_room s.now (line_of self.old) }
        ensures typed { line_of self.new ≡ typed s.now (line_of self.old) }
        ensures same_buffer { self.new.buffer.ghost_name ≡ self.old.buffer.ghost_name }
    {
        if !self.has_room(s.as_bytes()) {
            return Err(fmt::Error);
        }
        self.put(s.as_bytes());
        Ok(())
    }
}
