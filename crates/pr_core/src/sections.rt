//! The beginnings of sections: a kind, and how many bytes follow.
ghost use Rattle.std.specs.Prelude.{◌≡◌, ◌+◌, ◌≤◌, length, true, IfOk};
ghost use Rattle.pr_core.specs.CoreReading.{section_size};
ghost use Rattle.pr_core.specs.Sections.{HasRecords, takes};

use crate::CoreFault;
use crate::words::{exact_word, in_range, word_read};
use pr_codec::WORD;

/// The version of the layout of cores.
pub(crate) const VERSION: u64 = 1;

/// The kinds of sections, in the order in which they stand in a core.
pub(crate) const PSINFO: u64 = 1;

pub(crate) const LSTATUS: u64 = 2;

pub(crate) const SIGACT: u64 = 3;

pub(crate) const MAP: u64 = 4;

pub(crate) const FDS: u64 = 5;

pub(crate) const MEMORY: u64 = 6;

/// How many bytes stand before those of a section: its kind and its length.
pub(crate) const HEADING: usize = 2 * WORD;

/// How many bytes a section of a kind may have.
#[derive(Clone, Copy)]
pub(crate) enum Sizes {
    /// So many.
    Exactly(u64),
    /// Those of any number of records of this size.
    Records(usize),
    /// Those of a word, and of any number of records of this size.
    Counted(usize),
}

impl Sizes {
    fn take(self, size: u64) -> bool
        requires { HasRecords self }
        ensures { result ≡ takes self size }
    {
        match self {
            Sizes::Exactly(expected) => size == expected,
            Sizes::Records(record) => size % record as u64 == 0,
            Sizes::Counted(record) => {
                WORD as u64 <= size && (size - WORD as u64) % record as u64 == 0
            }
        }
    }
}

/// How many bytes the section of a kind has that begins at a place. All of them are there.
#[tactic(auto, unfolding(crate::specs::CoreReading::section_size, crate::specs::CoreReading::word_in))]
pub(crate) fn section_size(
    bytes: &[u8],
    kind: u64,
    sizes: Sizes,
    at: usize,
) -> Result<usize, CoreFault>
    requires { HasRecords sizes }
    ensures value { result ≡ section_size kind (takes sizes) bytes.now at }
    ensures fits { IfOk result (λ size. takes sizes size ≡ true) }
    ensures within { IfOk result (λ size. at + 16 + size ≤ length bytes.now) }
{
    exact_word(bytes, kind, at)?;
    let word = word_read(bytes, at + WORD)?;
    let size = in_range(sizes.take(word), at + WORD, word)?;
    let begin = at + HEADING;
    if size > (bytes.len() - begin) as u64 {
        return Err(CoreFault::Short { at: begin });
    }
    Ok(size as usize)
}
