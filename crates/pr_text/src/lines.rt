ghost use Rattle.std.specs.Prelude.{◌≡◌, ◌≤◌, ◌<◌, ◌+◌, ◌++◌, ◌↔◌, [], length, take, decimal, IsTrue, IsErr, OnOk, OnErr, IfOk};
ghost use Rattle.pr_text.specs.Numerals.{hex_text, hex8_text};

use crate::digits::hex_digits;
use pr_num::NoMemory;
use pr_num::limits::LINE_LIMIT;
use std::alloc::Global;
use std::marker::Model;
use thiserror::Error;

/// A line would pass its limit of 4,096 bytes.
#[derive(Clone, Copy, Debug, PartialEq, Eq, Error)]
#[error("a line passes 4,096 bytes")]
pub struct TooLong;

/// A line that is being written, of at most 4,096 bytes; contracts see the list of its bytes.
///
/// Room for the longest line is reserved when it is made, and no later call takes memory. Each call that
/// appends a text appends all of it, or answers `TooLong` and leaves the line.
#[derive(Drop)]
pub struct Line {
    bytes: Vec<u8>,
}

impl Model for Line {
    ghost use Rattle.std.specs.Prelude.{ℕ, ◌≤◌, List, vec_len, vec_capacity};
    ghost use Rattle.pr_num.specs.declared.limits.TheConstants.{LINE_LIMIT};

    ghost Value = { List ℕ };

    ghost view = { λ a. a.bytes.items };

    ghost invariant = { λ a. (vec_len a.bytes ≤ LINE_LIMIT) × (LINE_LIMIT ≤ vec_capacity a.bytes) };
}

impl Line {
    /// An empty line.
    pub fn new(alloc: Global) -> Result<Line, NoMemory>
        ensures { IfOk result (λ line. line ≡ []) }
    {
        let bytes = Vec::with_capacity(alloc, LINE_LIMIT)?;
        Ok(Line { bytes })
    }

    /// The bytes so far.
    pub fn bytes(&self) -> &[u8]
        ensures bytes { result.now ≡ self.now }
        ensures limit { length result.now ≤ LINE_LIMIT }
    {
        &self.bytes
    }

    /// How many bytes the line has.
    pub fn len(&self) -> usize
        ensures len { result ≡ length self.now }
        ensures limit { result ≤ LINE_LIMIT }
    {
        self.bytes.len()
    }

    /// Whether the line has no byte.
    pub fn is_empty(&self) -> bool
        ensures { IsTrue result ↔ (self.now ≡ []) }
    {
        self.bytes.is_empty()
    }

    /// Takes every byte off the line.
    pub fn clear(&mut self)
        ensures { self.new ≡ [] }
    {
        self.bytes.clear();
    }

    /// Takes off all but the first `len` bytes.
    pub fn truncate(&mut self, len: usize)
        ensures { self.new ≡ take len self.old }
    {
        self.bytes.truncate(len);
    }

    /// Appends these bytes.
    pub fn text(&mut self, s: &[u8]) -> Result<(), TooLong>
        ensures ok { OnOk result (self.new ≡ self.old ++ s.now) }
        ensures too_long { IsErr result ↔ (LINE_LIMIT < length self.old + length s.now) }
        ensures err { OnErr result (self.new ≡ self.old) }
    {
        if s.len() > LINE_LIMIT - self.bytes.len() {
            return Err(TooLong);
        }
        match self.bytes.extend_from_slice(s) {
            Ok(()) => Ok(()),
            Err(_) => unreachable!(),
        }
    }

    /// Appends a number in decimal.
    pub fn dec(&mut self, n: u64) -> Result<(), TooLong>
        ensures ok { OnOk result (self.new ≡ self.old ++ decimal n) }
        ensures too_long { IsErr result ↔ (LINE_LIMIT < length self.old + length (decimal n)) }
        ensures err { OnErr result (self.new ≡ self.old) }
    {
        self.text(itoa::Buffer::new().format(n).as_bytes())
    }

    /// Appends a number in hex: `0x` and its digits in lower case, without leading zeros.
    pub fn hex(&mut self, n: u64) -> Result<(), TooLong>
        ensures ok { OnOk result (self.new ≡ self.old ++ hex_text n) }
        ensures too_long { IsErr result ↔ (LINE_LIMIT < length self.old + length (hex_text n)) }
        ensures err { OnErr result (self.new ≡ self.old) }
    {
        let (digits, first) = hex_digits(n);
        self.two_texts(b"0x", &digits[first..])
    }

    /// Appends a number in hex: `0x` and at least eight digits in lower case, the first of them zeros where
    /// the number has fewer.
    pub fn hex8(&mut self, n: u64) -> Result<(), TooLong>
        ensures ok { OnOk result (self.new ≡ self.old ++ hex8_text n) }
        ensures too_long { IsErr result ↔ (LINE_LIMIT < length self.old + length (hex8_text n)) }
        ensures err { OnErr result (self.new ≡ self.old) }
    {
        let (digits, first) = hex_digits(n);
        self.two_texts(b"0x", &digits[first.min(8)..])
    }

    // Appends two texts, both or none.
    fn two_texts(&mut self, first: &[u8], second: &[u8]) -> Result<(), TooLong>
        ensures ok { OnOk result (self.new ≡ self.old ++ (first.now ++ second.now)) }
        ensures too_long { IsErr result ↔ (LINE_LIMIT < length self.old + length (first.now ++ second.now)) }
        ensures err { OnErr result (self.new ≡ self.old) }
    {
        let before = self.len();
        self.text(first)?;
        let done = self.text(second);
        if done.is_err() {
            self.truncate(before);
        }
        done
    }
}
