//! A text of any length that is being written.
ghost use Rattle.std.specs.Prelude.{◌≡◌, ◌++◌, ◌<◌, ◌^◌, [], false, decimal, length, replicate, take, IfOk, OnOk};
ghost use Rattle.pr_text.specs.Numerals.{hex_text, hex8_text};
ghost use Rattle.pr_text.specs.Quotes.{quoted_text};

use crate::laws::{numbers_are_their_digits, quoted_text_tells_its_bytes};
use crate::lines::Line;
use pr_num::{Bytes, NoMemory};
use std::alloc::Global;
use std::marker::Model;

/// A text that is being written, as long as there is memory for it; contracts see the list of its bytes.
///
/// Each call that appends may run out of memory. What was appended until then is of no use.
#[derive(Drop)]
pub struct Text {
    bytes: Vec<u8>,
    /// Where numbers in hex and quoted bytes are written first.
    line: Line,
}

impl Model for Text {
    ghost use Rattle.std.specs.Prelude.{ℕ, List};

    ghost Value = { List ℕ };

    ghost view = { λ text. text.bytes.items };
}

impl Text {
    /// No text.
    pub fn new(alloc: Global) -> Result<Text, NoMemory>
        ensures { IfOk result (λ text. text ≡ []) }
    {
        let line = Line::new(alloc)?;
        Ok(Text {
            bytes: Vec::new(alloc),
            line,
        })
    }

    /// The bytes of the text. Takes no memory.
    pub fn into_bytes(self) -> Bytes
        ensures { result ≡ self }
    {
        Bytes::from_vec(self.bytes)
    }

    /// The bytes so far.
    pub fn as_slice(&self) -> &[u8]
        ensures { result.now ≡ self.now }
    {
        &self.bytes
    }

    /// How many bytes there are so far.
    pub fn len(&self) -> usize
        ensures { result ≡ length self.now }
    {
        self.bytes.len()
    }

    /// Takes off all but the first `len` bytes. Takes no memory.
    pub fn truncate(&mut self, len: usize)
        ensures { self.new ≡ take len self.old }
    {
        self.bytes.truncate(len);
    }

    /// Appends bytes as they are.
    pub fn text(&mut self, bytes: &[u8]) -> Result<(), NoMemory>
        ensures { OnOk result (self.new ≡ self.old ++ bytes.now) }
    {
        self.bytes.extend_from_slice(bytes)?;
        Ok(())
    }

    /// Appends a byte, so many times.
    pub fn times(&mut self, byte: u8, count: usize) -> Result<(), NoMemory>
        requires { count < 2 ^ 63 }
        ensures { OnOk result (self.new ≡ self.old ++ replicate count byte) }
    {
        self.bytes.resize(self.bytes.len() + count, byte)?;
        Ok(())
    }

    /// Appends a number in decimal.
    pub fn decimal(&mut self, n: u64) -> Result<(), NoMemory>
        ensures { OnOk result (self.new ≡ self.old ++ decimal n) }
    {
        self.text(itoa::Buffer::new().format(n).as_bytes())
    }

    /// Appends a number in hex, without leading zeros.
    pub fn hex(&mut self, n: u64) -> Result<(), NoMemory>
        ensures { OnOk result (self.new ≡ self.old ++ hex_text n) }
    {
        numbers_are_their_digits();
        self.line.clear();
        if self.line.hex(n).is_err() {
            unreachable!()
        }
        self.bytes.extend_from_slice(self.line.bytes())?;
        Ok(())
    }

    /// Appends a number in hex, of at least eight digits.
    pub fn hex8(&mut self, n: u64) -> Result<(), NoMemory>
        ensures { OnOk result (self.new ≡ self.old ++ hex8_text n) }
    {
        numbers_are_their_digits();
        self.line.clear();
        if self.line.hex8(n).is_err() {
            unreachable!()
        }
        self.bytes.extend_from_slice(self.line.bytes())?;
        Ok(())
    }

    /// Appends bytes in quotes.
    pub fn quoted(&mut self, bytes: &[u8]) -> Result<(), NoMemory>
        ensures { OnOk result (self.new ≡ self.old ++ quoted_text bytes.now false) }
    {
        quoted_text_tells_its_bytes();
        self.line.clear();
        if self.line.quoted(bytes, false).is_err() {
            unreachable!()
        }
        self.bytes.extend_from_slice(self.line.bytes())?;
        Ok(())
    }
}
