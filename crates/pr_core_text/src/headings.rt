//! The heading of the text of a core.
ghost use Rattle.std.specs.Prelude.{◌≡◌};
ghost use Rattle.pr_core_text.specs.CoreTexts.{if_written, size_in};
ghost use Rattle.pr_text.specs.NumberWords.{number_of};

use itoa::Buffer;
use pr_text::number_of;

/// What stands before the number of bytes.
const HEADING: &[u8] = b"core ";

/// The number that a word writes in decimal; no numeral has a sign or a leading zero.
fn written_number(word: &[u8]) -> Option<u64>
    ensures { result ≡ if_written word.now (number_of word.now) }
{
    let n = number_of(word)?;
    if Buffer::new().format(n).as_bytes() == word {
        Some(n)
    } else {
        None
    }
}

/// How many bytes a heading tells; `None` where the line is no heading.
#[tactic(auto, unfolding(crate::specs::CoreTexts::size_in))]
pub fn size_in(line: &[u8]) -> Option<u64>
    ensures { result ≡ size_in line.now }
{
    written_number(line.strip_prefix(HEADING)?)
}
