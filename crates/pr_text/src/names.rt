//! Names as they stand in a line.
ghost use Rattle.std.specs.Prelude.{◌≡◌};
ghost use Rattle.std.specs.List.{list_all};
ghost use Rattle.pr_text.specs.Names.{is_name_byte, is_name, name_of};

use pr_num::Name;

#[tactic(auto, unfolding(crate::specs::Names::is_name_byte))]
fn is_name_byte(b: u8) -> bool
    ensures { result ≡ is_name_byte b }
{
    matches!(b, b'a'..=b'z' | b'A'..=b'Z' | b'0'..=b'9' | b'_' | b'.' | b'-')
}

fn are_name_bytes(bytes: &[u8]) -> bool
    ensures { result ≡ list_all is_name_byte bytes.now }
{
    bytes.iter().all(|b| is_name_byte(*b))
}

/// The name that a word is, if it is one: 1 to 31 letters, digits, `_`, `.` and `-`, the first a letter.
#[tactic(auto, unfolding(crate::specs::Names::is_name))]
pub fn name_of(word: &[u8]) -> Option<Name>
    ensures { result ≡ name_of word.now }
{
    let first = word.first()?;
    if !matches!(*first, b'a'..=b'z' | b'A'..=b'Z') || !are_name_bytes(word) {
        return None;
    }
    Name::from_slice(word)
}
