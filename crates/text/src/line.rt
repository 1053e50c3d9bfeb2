// One line of output, built in fixed memory, so that one call writes it. A method adds its text behind what stands
// there; what finds no room is left out.
ghost use Rattle.std.specs.Prelude.{◌≡◌, ℕ, ◌+◌, ◌<◌, ◌≤◌, List, [], ◌∷◌, ◌++◌, length, take, true};
ghost use Rattle.std.specs.Fmt.{decimal, digit_glyph};
ghost use Rattle.std.specs.Int.{to_be_bytes, w16};
ghost use Rattle.text.specs.Said.{said as Said·said};
ghost use Rattle.text.specs.Text.{with_text, spaced, edition_text, hex_bytes, hex_word, hex_words};

pub use crate::buffer::Line;
use crate::digits::{MOST_DIGITS, put_digits};
use std::fmt;

// The number of standard output among the open files.
const STDOUT: i32 = 1;

// The library's `io::hex` has lower case digits.
fn digit(value: u8) -> u8
    requires { value < 16 }
    ensures { result ≡ digit_glyph true value }
{
    if value < 10 {
        b'0' + value
    } else {
        b'A' + (value - 10)
    }
}

impl<const N: usize> Line<N> {
    pub fn new() -> Self
        ensures { Said·said result ≡ [] }
    {
        Line {
            bytes: [0; N],
            end: 0,
        }
    }

    // A line that starts with a number and a text.
    pub fn numbered(number: u64, text: &[u8]) -> Self
        ensures { Said·said result ≡ with_text N [] (decimal number ++ text.now) }
    {
        let mut line = Line::new();
        line.decimal(number);
        line.text(text);
        line
    }

    // What the line says so far.
    pub fn said(&self) -> &[u8]
        ensures { result.now ≡ Said·said self.now }
    {
        &self.bytes[..self.end]
    }

    // Writes what the line says so far.
    pub fn print(&self) {
        io::write_all(STDOUT, self.said());
    }

    // Ends the line and writes it.
    pub fn print_line(&mut self)
        ensures { Said·said self.new ≡ with_text N (Said·said self.old) (10 ∷ []) }
    {
        self.byte(b'\n');
        self.print();
    }

    // Writes the text and begins anew where there is less room than wanted.
    pub fn make_room(&mut self, wanted: usize)
        ensures kept { length (Said·said self.old) + wanted ≤ N → self.new ≡ self.old }
        ensures begun { N < length (Said·said self.old) + wanted → Said·said self.new ≡ [] }
    {
        if N - self.end < wanted {
            self.print();
            self.end = 0;
        }
    }

    // Here and below the end is read once: a byte that is written might change it, for all that the compiler knows.
    pub fn byte(&mut self, byte: u8)
        ensures { Said·said self.new ≡ with_text N (Said·said self.old) (byte ∷ []) }
    {
        let end = self.end;
        if end < N {
            self.bytes[end] = byte;
            self.end = end + 1;
        }
    }

    // A text that finds room is copied by itself, so that a short one, whose length is known, takes no call.
    pub fn text(&mut self, text: &[u8])
        ensures { Said·said self.new ≡ with_text N (Said·said self.old) text.now }
    {
        let start = self.end;
        let room = N - start;
        let bytes = &mut self.bytes[..];
        if text.len() <= room {
            bytes[start..start + text.len()].copy_from_slice(text);
            self.end = start + text.len();
        } else {
            bytes[start..].copy_from_slice(&text[..room]);
            self.end = N;
        }
    }

    // Most numbers have one digit, which needs no other place first.
    pub fn decimal(&mut self, number: u64)
        ensures { Said·said self.new ≡ with_text N (Said·said self.old) (decimal number) }
    {
        if number < 10 {
            return self.byte(b'0' + number as u8);
        }
        let mut digits = [0; MOST_DIGITS];
        let start = put_digits(number, &mut digits);
        self.text(&digits[start..]);
    }

    // The number has a space before it.
    pub fn field<T: Into<u64>>(&mut self, number: T)
        ensures { (n : ℕ) × T.converts number n × (Said·said self.new ≡ with_text N (Said·said self.old) (spaced (decimal n))) }
    {
        self.byte(b' ');
        self.decimal(number.into());
    }

    // An edition by its number, with a space before it: 21 stands as 2.1.
    pub fn edition(&mut self, number: u8)
        ensures { Said·said self.new ≡ with_text N (Said·said self.old) (spaced (edition_text number)) }
    {
        self.field(number / 10);
        self.byte(b'.');
        self.decimal(u64::from(number % 10));
    }

    // Each byte stands as its two digits, with nothing between them.
    pub fn bytes(&mut self, bytes: &[u8])
        ensures { Said·said self.new ≡ with_text N (Said·said self.old) (hex_bytes bytes.now) }
    {
        for byte in bytes {
            self.byte(digit(byte / 16));
            self.byte(digit(byte % 16));
        }
    }

    pub fn half(&mut self, half: u16)
        ensures { Said·said self.new ≡ with_text N (Said·said self.old) (hex_bytes (to_be_bytes w16 half)) }
    {
        self.bytes(&half.to_be_bytes());
    }

    pub fn word(&mut self, word: u32)
        ensures { Said·said self.new ≡ with_text N (Said·said self.old) (hex_word word) }
    {
        self.bytes(&word.to_be_bytes());
    }

    // The bytes have a space before them.
    pub fn spaced_bytes(&mut self, bytes: &[u8])
        ensures { Said·said self.new ≡ with_text N (Said·said self.old) (spaced (hex_bytes bytes.now)) }
    {
        self.byte(b' ');
        self.bytes(bytes);
    }

    // The word has a space before it.
    pub fn spaced_word(&mut self, word: u32)
        ensures { Said·said self.new ≡ with_text N (Said·said self.old) (spaced (hex_word word)) }
    {
        self.byte(b' ');
        self.word(word);
    }

    // Each word has a space before it.
    pub fn words(&mut self, words: &[u32])
        ensures { Said·said self.new ≡ with_text N (Said·said self.old) (hex_words words.now) }
    {
        for word in words {
            self.spaced_word(*word);
        }
    }

    // What a line has where there is nothing to tell.
    pub fn nothing(&mut self)
        ensures { Said·said self.new ≡ with_text N (Said·said self.old) (spaced (45 ∷ [])) }
    {
        self.text(b" -");
    }

    // The bytes with a space before them, where there are any to tell.
    pub fn bytes_or_nothing(&mut self, bytes: &[u8])
        ensures some { 0 < length bytes.now → Said·said self.new ≡ with_text N (Said·said self.old) (spaced (hex_bytes bytes.now)) }
        ensures none { length bytes.now ≡ 0 → Said·said self.new ≡ with_text N (Said·said self.old) (spaced (45 ∷ [])) }
    {
        if bytes.is_empty() {
            self.nothing();
        } else {
            self.spaced_bytes(bytes);
        }
    }
}

// What `write!` writes goes behind the text, and is an error where it finds no room.
impl<const N: usize> fmt::Write for Line<N> {
    ghost write_str_gives = { λ line text after. Said·said after ≡ Said·said line ++ text };

    fn write_str(&mut self, s: &str) -> fmt::Result {
        if N - self.end < s.len() {
            return Err(fmt::Error);
        }
        self.text(s.as_bytes());
        Ok(())
    }
}
