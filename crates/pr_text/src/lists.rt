//! Lists in a word: parts joined by `+`.
ghost use Rattle.std.specs.Prelude.{◌≡◌, map, IfOk};
ghost use Rattle.pr_text.specs.Lists.{parts_of};

use crate::cuts::pieces_of;
use pr_num::NoMemory;
use std::alloc::Global;

/// The parts of a word, which `+` joins; an empty part is a part.
pub fn parts_of(alloc: Global, word: &[u8]) -> Result<Vec<&[u8]>, NoMemory>
    ensures { IfOk result (λ parts. map (λ part. part.now) parts.items ≡ parts_of word.now) }
{
    pieces_of(alloc, word, b'+')
}
