//! Bytes as hex digits.
ghost use Rattle.std.specs.Prelude.{◌≡◌, ◌*◌, ◌<◌, ◌≤◌, [], length, take, IfOk, IfSome};
ghost use Rattle.pr_text.specs.HexWords.{digit_value, digits_of_bytes, byte_of, bytes_of_digits};

use crate::digits::hex_digit;
use pr_num::{Bytes, NoMemory};
use std::alloc::Global;

/// The value of a hex digit of lower case.
#[tactic(auto, unfolding(crate::specs::HexWords::digit_value))]
fn digit_value(c: u8) -> Option<u8>
    ensures value { result ≡ digit_value c }
    ensures range { IfSome result (λ d. d < 16) }
{
    match c {
        b'0'..=b'9' => Some(c - b'0'),
        b'a'..=b'f' => Some(c - b'a' + 10),
        _ => None,
    }
}

/// The byte of two hex digits.
fn byte_of(high: u8, low: u8) -> Option<u8>
    ensures { result ≡ byte_of (digit_value high) (digit_value low) }
{
    Some(16 * digit_value(high)? + digit_value(low)?)
}

/// No bytes, with room for so many.
fn with_capacity(alloc: Global, room: usize) -> Result<Vec<u8>, NoMemory>
    ensures { IfOk result (λ bytes. bytes.items ≡ []) }
{
    Ok(Vec::with_capacity(alloc, room)?)
}

/// The bytes that hex digits say, two digits of lower case a byte; `None` where they say none.
#[tactic(auto, unfolding(crate::specs::HexWords::bytes_of_digits))]
pub fn bytes_of_digits(alloc: Global, digits: &[u8]) -> Result<Option<Bytes>, NoMemory>
    ensures { IfOk result (λ bytes. bytes ≡ bytes_of_digits digits.now) }
{
    let mut bytes = with_capacity(alloc, digits.len() / 2)?;
    let mut rest = digits;
    while let [high, low, others @ ..] = rest {
        let Some(byte) = byte_of(*high, *low) else {
            return Ok(None);
        };
        bytes.push(byte)?;
        rest = others;
    }
    if rest.is_empty() {
        Ok(Some(Bytes::from_vec(bytes)))
    } else {
        Ok(None)
    }
}

/// Puts the digits of bytes at the front of a piece, two for each byte. Takes no memory.
pub fn put_digits(piece: &mut [u8], bytes: &[u8])
    requires { 2 * length bytes.now ≤ length piece.old }
    ensures { take (2 * length bytes.now) piece.new ≡ digits_of_bytes bytes.now }
{
    for (i, b) in bytes.iter().enumerate() {
        piece[2 * i] = hex_digit(*b / 16);
        piece[2 * i + 1] = hex_digit(*b % 16);
    }
}
