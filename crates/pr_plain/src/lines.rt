//! Lines, each written whole or not at all.
ghost use Rattle.std.specs.Prelude.{◌≡◌, ◌++◌, [], ◌∷◌, decimal, take, IsOk, IsErr, OnOk, OnErr};
ghost use Rattle.pr_plain.specs.Buffers.{StartsWith};
ghost use Rattle.pr_text.specs.TextLines.{newline};
ghost use Rattle.pr_text.specs.SpacedWords.{joined};

use crate::words::{append, write_number};
use pr_num::NoMemory;
use std::alloc::AllocError;

/// Leaves a buffer as it was at this length, where what was to be written after that was not.
pub fn whole_or_nothing(
    out: &mut Vec<u8>,
    before: usize,
    written: Result<(), AllocError>,
) -> Result<(), NoMemory>
    ensures whole { OnOk written (IsOk result × (out.new.items ≡ out.old.items)) }
    ensures nothing { OnErr written (IsErr result × (out.new.items ≡ take before out.old.items)) }
{
    if written.is_err() {
        out.truncate(before);
    }
    Ok(written?)
}

// A line of a word and a number, or a part of it.
#[tactic(auto, using(crate::proofs::BufferLemmas::kept), unfolding(pr_text::specs::SpacedWords::joined))]
fn append_pair(out: &mut Vec<u8>, word: &[u8], number: u64) -> Result<(), AllocError>
    ensures all { OnOk result (out.new.items ≡ out.old.items ++ (joined (word.now ∷ decimal number ∷ []) ++ newline ∷ [])) }
    ensures kept { StartsWith out.new.items out.old.items }
{
    append(out, word)?;
    write_number(out, number)?;
    append(out, b"\n")
}

/// Writes a line of a word and a number, with the newline that ends it. Where memory runs out the buffer is as it was.
#[tactic(auto, using(crate::proofs::BufferLemmas::cut))]
pub fn write_pair(out: &mut Vec<u8>, word: &[u8], number: u64) -> Result<(), NoMemory>
    ensures written { OnOk result (out.new.items ≡ out.old.items ++ (joined (word.now ∷ decimal number ∷ []) ++ newline ∷ [])) }
    ensures unchanged { OnErr result (out.new.items ≡ out.old.items) }
{
    let before = out.len();
    let written = append_pair(out, word, number);
    whole_or_nothing(out, before, written)
}
