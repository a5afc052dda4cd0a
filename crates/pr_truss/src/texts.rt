ghost use Rattle.std.specs.Prelude.{◌≡◌, length, nat_lt, take};
ghost use Rattle.pr_num.specs.Limits.{asked_limit};

use pr_num::limits::ASKED_LIMIT;
use std::marker::Model;

/// What a read of the memory of a process gave: bytes, kept in place, and whether they are fewer than were asked for.
/// Seen by contracts as the list of the bytes, with that.
#[derive(Clone, Copy)]
pub struct MemoryRead {
    bytes: [u8; ASKED_LIMIT],
    len: usize,
    short: bool,
}

impl Model for MemoryRead {
    ghost use Rattle.std.specs.Prelude.{ℕ, Bool, List, length, take};
    ghost use Rattle.pr_num.specs.Limits.{asked_limit};
    ghost use Rattle.pr_num.specs.Padding.{padded};
    ghost use Rattle.pr_truss.specs.Texts.{IsText, text_back};

    ghost Value = { List ℕ × Bool };

    ghost view = { λ a. (take a.len a.bytes, a.short) };

    ghost invariant = { λ a. IsText a.bytes a.len };

    ghost inverse = { λ text. record { bytes = padded asked_limit text.0; len = length text.0; short = text.1 } };

    ghost inverse_ok = { λ a h. text_back a.bytes a.len h (λ bytes len. record { bytes = bytes; len = len; short = a.short }) };
}

impl MemoryRead {
    /// What a read gave that asked for so many bytes: the first `ASKED_LIMIT`, or all where they are fewer. Takes no
    /// memory.
    pub(crate) fn new(read: &[u8], asked: u64) -> MemoryRead
        ensures { result ≡ (take asked_limit read.now, nat_lt (length read.now) asked) }
    {
        let front = &read[..ASKED_LIMIT.min(read.len())];
        let mut bytes = [0; ASKED_LIMIT];
        bytes[..front.len()].copy_from_slice(front);
        MemoryRead {
            bytes,
            len: front.len(),
            short: (read.len() as u64) < asked,
        }
    }

    /// The bytes.
    pub(crate) fn as_slice(&self) -> &[u8]
        ensures { result.now ≡ self.now.0 }
    {
        &self.bytes[..self.len]
    }

    /// Whether the bytes are fewer than were asked for.
    pub(crate) fn is_short(&self) -> bool
        ensures { result ≡ self.now.1 }
    {
        self.short
    }
}
