// A line on a buffer of its own.
ghost use Rattle.std.specs.Prelude.{◌≡◌, ◌+◌, ◌≤◌, ◌<◌, ◌++◌, ◌∷◌, [], length, decimal};
ghost use Rattle.std.specs.Fmt.{signed_decimal};
ghost use Rattle.f8_spec.specs.Spelling.{hex2 as spelled_hex2, hex4 as spelled_hex4, octal2 as spelled_octal2};

use std::marker::Model;
use text_lines::hex2;

/// The bytes that a line has room for.
pub const LINE_ROOM: usize = 512;

/// A line on a buffer of its own, so that writing takes no memory. Contracts see the list of its bytes.
#[derive(Drop)]
pub struct Line {
    bytes: [u8; LINE_ROOM],
    len: usize,
}

impl Model for Line {
    ghost use Rattle.std.specs.Prelude.{ℕ, List, ◌≡◌, ◌≤◌, take, length};
    ghost use Rattle.report.specs.declared.line_buffer.TheConstants.{LINE_ROOM};

    ghost Value = { List ℕ };

    ghost view = { λ l. take l.len l.bytes };

    ghost invariant = { λ l. (l.len ≤ LINE_ROOM) × (length l.bytes ≡ LINE_ROOM) };
}

impl Line {
    /// An empty line.
    pub fn new() -> Line
        ensures { result ≡ [] }
    {
        Line {
            bytes: [0; LINE_ROOM],
            len: 0,
        }
    }

    /// The bytes so far, at most [`LINE_ROOM`].
    pub fn as_bytes(&self) -> &[u8]
        ensures value { result.now ≡ self.now }
        ensures room { length result.now ≤ LINE_ROOM }
    {
        &self.bytes[..self.len]
    }

    /// Writes a byte at the end.
    pub fn byte(&mut self, byte: u8)
        requires { length self.old < LINE_ROOM }
        ensures text { self.new ≡ self.old ++ byte ∷ [] }
        ensures len { length self.new ≡ length self.old + 1 }
    {
        let len = self.len;
        if len < LINE_ROOM {
            self.bytes[len] = byte;
            self.len = len + 1;
        } else {
            unreachable!()
        }
    }

    /// Writes a text at the end.
    pub fn text(&mut self, text: &[u8])
        requires { length self.old + length text.now ≤ LINE_ROOM }
        ensures text { self.new ≡ self.old ++ text.now }
        ensures len { length self.new ≡ length self.old + length text.now }
    {
        for byte in text {
            self.byte(*byte);
        }
    }

    /// Writes a byte as two hexadecimal digits.
    pub fn hex2(&mut self, byte: u8)
        requires { length self.old + 2 ≤ LINE_ROOM }
        ensures text { self.new ≡ self.old ++ spelled_hex2 byte }
        ensures len { length self.new ≡ length self.old + 2 }
    {
        let digits = hex2(byte);
        self.byte(digits[0]);
        self.byte(digits[1]);
    }

    /// Writes an address as four hexadecimal digits.
    pub fn hex4(&mut self, at: u16)
        requires { length self.old + 4 ≤ LINE_ROOM }
        ensures text { self.new ≡ self.old ++ spelled_hex4 at }
        ensures len { length self.new ≡ length self.old + 4 }
    {
        self.hex2((at / 256) as u8);
        self.hex2((at % 256) as u8);
    }

    /// Writes a number below 64 as two octal digits.
    pub fn octal2(&mut self, number: u8)
        requires small { number < 64 }
        requires room { length self.old + 2 ≤ LINE_ROOM }
        ensures text { self.new ≡ self.old ++ spelled_octal2 number }
        ensures len { length self.new ≡ length self.old + 2 }
    {
        self.byte(b'0' + number / 8);
        self.byte(b'0' + number % 8);
    }

    /// Writes a number in decimal digits, at most 20.
    pub fn decimal(&mut self, number: u64)
        requires { length self.old + 20 ≤ LINE_ROOM }
        ensures text { self.new ≡ self.old ++ decimal number }
        ensures len { length self.new ≤ length self.old + 20 }
    {
        let mut buffer = itoa::Buffer::new();
        self.text(buffer.format(number).as_bytes());
    }

    /// Writes a number below 256 in decimal digits, at most three.
    pub fn small(&mut self, number: u8)
        requires { length self.old + 3 ≤ LINE_ROOM }
        ensures text { self.new ≡ self.old ++ decimal number }
        ensures len { length self.new ≤ length self.old + 3 }
    {
        let mut buffer = itoa::Buffer::new();
        self.text(buffer.format(number).as_bytes());
    }

    /// Writes a signed number in decimal digits, behind `-` where it's negative: at most 20 characters.
    pub fn signed(&mut self, number: i64)
        requires { length self.old + 20 ≤ LINE_ROOM }
        ensures text { self.new ≡ self.old ++ signed_decimal number }
        ensures len { length self.new ≤ length self.old + 20 }
    {
        let mut buffer = itoa::Buffer::new();
        self.text(buffer.format(number).as_bytes());
    }
}
