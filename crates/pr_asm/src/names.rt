//! Labels as they stand in a program.
ghost use Rattle.std.specs.Prelude.{◌≡◌};
ghost use Rattle.pr_asm.specs.Names.{label_of};

use pr_num::Name;
use pr_text::name_of;

/// The name before the colon of a word, if the word is a name and a colon.
#[tactic(auto, unfolding(crate::specs::Names::label_of))]
pub fn label_of(word: &[u8]) -> Option<Name>
    ensures { result ≡ label_of word.now }
{
    let (last, front) = word.split_last()?;
    if *last == b':' { name_of(front) } else { None }
}
