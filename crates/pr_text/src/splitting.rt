ghost use Rattle.std.specs.Prelude.{◌≡◌, List, map, IfOk};
ghost use Rattle.pr_text.specs.Words.{words_of, texts_of};

use crate::spans::Words;
use pr_num::NoMemory;
use std::alloc::Global;

/// The words of a line, in order, none left out. Blanks, tabs and commas part words. A word that begins with
/// a quote ends after the next quote that has no backslash before it, or at the line's end, and what follows
/// begins a new word; elsewhere a quote is a byte like others.
///
/// Takes time linear in the line, and no memory.
pub fn words(line: &[u8]) -> Words<'_>
    ensures { result ≡ words_of line.now }
{
    Words::new(line)
}

/// The bytes of each word of a line, in order.
#[tactic(auto, using(crate::proofs::DivisionLemmas::word_laws))]
pub fn word_texts<'a>(alloc: Global, line: &'a [u8]) -> Result<Vec<&'a [u8]>, NoMemory>
    ensures { IfOk result (λ v. map (λ t. t.now) v.items ≡ texts_of line.now) }
{
    let mut texts = Vec::new(alloc);
    let mut left = words(line);
    while let Some(word) = left.next() {
        texts.push(word.text(line))?;
    }
    Ok(texts)
}
