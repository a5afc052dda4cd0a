//! Texts in quotes.
ghost use Rattle.std.specs.Prelude.{◌≡◌, ◌<◌, ◌≤◌, length, IfOk, IfSome, option_map};
ghost use Rattle.pr_text.specs.QuotedWords.{bytes_between, quoted_bytes, first_byte, escaped_byte, hex_byte};

use crate::number_words::digit_of;
use pr_num::{Bytes, NoMemory};
use std::alloc::Global;

/// The byte that stands first between quotes, and what stands after it. An escape spells one byte.
#[tactic(auto, unfolding(crate::specs::QuotedWords::first_byte))]
fn first_byte(text: &[u8]) -> Option<(u8, &[u8])>
    ensures value { option_map (λ x. (x.0, x.1.now)) result ≡ first_byte text.now }
    ensures shorter { IfSome result (λ x. length x.1.now < length text.now) }
{
    let (first, rest) = text.split_first()?;
    match *first {
        b'\\' => escaped_byte(rest),
        b'"' => None,
        byte => Some((byte, rest)),
    }
}

/// The byte of an escape, after its backslash.
#[tactic(auto, unfolding(crate::specs::QuotedWords::escaped_byte))]
fn escaped_byte(text: &[u8]) -> Option<(u8, &[u8])>
    ensures value { option_map (λ x. (x.0, x.1.now)) result ≡ escaped_byte text.now }
    ensures shorter { IfSome result (λ x. length x.1.now < length text.now) }
{
    let (letter, rest) = text.split_first()?;
    match *letter {
        b'n' => Some((b'\n', rest)),
        b'\\' => Some((b'\\', rest)),
        b'"' => Some((b'"', rest)),
        b'x' => hex_byte(rest),
        _ => None,
    }
}

#[tactic(auto, unfolding(crate::specs::QuotedWords::hex_byte))]
fn hex_byte(text: &[u8]) -> Option<(u8, &[u8])>
    ensures value { option_map (λ x. (x.0, x.1.now)) result ≡ hex_byte text.now }
    ensures shorter { IfSome result (λ x. length x.1.now < length text.now) }
{
    let (high, rest) = text.split_first()?;
    let (low, rest) = rest.split_first()?;
    Some((digit_of(*high)? * 16 + digit_of(*low)?, rest))
}

/// The bytes that stand between quotes, if each is spelled well.
fn bytes_between(alloc: Global, text: &[u8]) -> Result<Option<Bytes>, NoMemory>
    ensures { IfOk result (λ bytes. bytes ≡ bytes_between text.now) }
{
    let mut bytes = Vec::new(alloc);
    let mut rest = text;
    while !rest.is_empty() {
        let Some((byte, after)) = first_byte(rest) else {
            return Ok(None);
        };
        bytes.push(byte)?;
        rest = after;
    }
    Ok(Some(Bytes::from_vec(bytes)))
}

/// The bytes of a text in quotes, if the word is one. The last byte of the word is the quote that closes it, and
/// belongs to no escape.
#[tactic(auto, unfolding(crate::specs::QuotedWords::quoted_bytes))]
pub fn quoted_bytes(alloc: Global, word: &[u8]) -> Result<Option<Bytes>, NoMemory>
    ensures { IfOk result (λ bytes. bytes ≡ quoted_bytes word.now) }
{
    let len = word.len();
    if len < 2 || word[0] != b'"' || word[len - 1] != b'"' {
        return Ok(None);
    }
    bytes_between(alloc, &word[1..len - 1])
}
