ghost use Rattle.std.specs.Prelude.{◌≡◌, ◌≤◌, ◌<◌, ◌+◌, ◌++◌, ◌↔◌, length, take, IsErr, OnOk, OnErr};
ghost use Rattle.std.specs.List.{flat_map};
ghost use Rattle.pr_text.specs.Quotes.{quoted_byte, quoted_text};

use crate::digits::hex_digit;
use crate::lines::{Line, TooLong};
use crate::slices::front;
use pr_num::limits::{LINE_LIMIT, SHOWN_LIMIT};

/// How many bytes a quoted text shows at most.
pub const QUOTED_LIMIT: usize = SHOWN_LIMIT;

/// A byte as it stands between quotes, and how many bytes that takes.
#[tactic(auto, unfolding(crate::specs::Quotes::quoted_byte))]
fn quoted_byte(b: u8) -> ([u8; 4], usize)
    ensures size { result.1 ≤ 4 }
    ensures bytes { take result.1 result.0 ≡ quoted_byte b }
{
    match b {
        b'"' | b'\\' => ([b'\\', b, 0, 0], 2),
        b' '..=b'~' => ([b, 0, 0, 0], 1),
        _ => ([b'\\', b'x', hex_digit(b / 16), hex_digit(b % 16)], 4),
    }
}

impl Line {
    /// Appends bytes in quotes, the first 64 at most, and `..` after the closing quote where there are more
    /// or `more` says that they go on. A quote and a backslash have a backslash before them, and a byte that
    /// ASCII does not print is `\x` and two hex digits (truss(1)).
    pub fn quoted(&mut self, b: &[u8], more: bool) -> Result<(), TooLong>
        ensures ok { OnOk result (self.new ≡ self.old ++ quoted_text b.now more) }
        ensures too_long { IsErr result ↔ (LINE_LIMIT < length self.old + length (quoted_text b.now more)) }
        ensures err { OnErr result (self.new ≡ self.old) }
    {
        let before = self.len();
        let done = self.quote(b, more);
        if done.is_err() {
            self.truncate(before);
        }
        done
    }

    // The same, but leaves part of the text where the line is too long.
    #[tactic(auto, unfolding(crate::specs::Quotes::quoted_text))]
    fn quote(&mut self, b: &[u8], more: bool) -> Result<(), TooLong>
        ensures ok { OnOk result (self.new ≡ self.old ++ quoted_text b.now more) }
        ensures too_long { IsErr result ↔ (LINE_LIMIT < length self.old + length (quoted_text b.now more)) }
        ensures err { OnErr result (take (length self.old) self.new ≡ self.old) }
    {
        self.text(b"\"")?;
        self.quoted_bytes(front(b, QUOTED_LIMIT))?;
        self.text(b"\"")?;
        if more || b.len() > QUOTED_LIMIT {
            self.text(b"..")?;
        }
        Ok(())
    }

    // Each byte as it stands between quotes.
    #[tactic(auto, using(crate::proofs::QuoteLemmas::quoted_front))]
    fn quoted_bytes(&mut self, bytes: &[u8]) -> Result<(), TooLong>
        ensures ok { OnOk result (self.new ≡ self.old ++ flat_map quoted_byte bytes.now) }
        ensures too_long { IsErr result
            ↔ (LINE_LIMIT < length self.old + length (flat_map quoted_byte bytes.now)) }
        ensures err { OnErr result (take (length self.old) self.new ≡ self.old) }
    {
        // Read for its contract: the line is within its limit, also where there are no bytes to append.
        let _within = self.len();
        for b in bytes {
            let (text, len) = quoted_byte(*b);
            self.text(&text[..len])?;
        }
        Ok(())
    }
}
