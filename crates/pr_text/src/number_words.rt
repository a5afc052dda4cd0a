//! Numbers as they stand in a line.
ghost use Rattle.std.specs.Prelude.{◌≡◌, ◌<◌, ◌≤◌, Some, IfSome};
ghost use Rattle.pr_text.specs.NumberWords.{digit_of, with_digit, number_from, number_after_zero, number_of, id_of};

/// The value of a hex digit of either case.
#[tactic(auto, unfolding(crate::specs::NumberWords::digit_of))]
pub fn digit_of(b: u8) -> Option<u8>
    ensures value { result ≡ digit_of b }
    ensures range { IfSome result (λ d. d < 16) }
{
    match b {
        b'0'..=b'9' => Some(b - b'0'),
        b'a'..=b'f' => Some(b - b'a' + 10),
        b'A'..=b'F' => Some(b - b'A' + 10),
        _ => None,
    }
}

/// A number with one more digit of its base after it.
#[tactic(auto, unfolding(crate::specs::NumberWords::with_digit))]
fn with_digit(base: u64, value: u64, b: u8) -> Option<u64>
    ensures { result ≡ with_digit base value b }
{
    let digit = digit_of(b)? as u64;
    if digit >= base {
        return None;
    }
    value.checked_mul(base)?.checked_add(digit)
}

/// The number that digits of a base make.
#[tactic(auto, unfolding(crate::specs::NumberWords::number_from))]
fn number_from(base: u64, digits: &[u8]) -> Option<u64>
    ensures { result ≡ number_from base 0 digits.now }
{
    let mut value = 0;
    for b in digits {
        value = with_digit(base, value, *b)?;
    }
    Some(value)
}

/// The number that a word is, if it is one: decimal digits without a leading zero, or `0x` and hex digits of either
/// case, below 2^64.
#[tactic(auto, unfolding(crate::specs::NumberWords::number_of))]
pub fn number_of(word: &[u8]) -> Option<u64>
    ensures { result ≡ number_of word.now }
{
    let (first, rest) = word.split_first()?;
    if *first == b'0' {
        number_after_zero(rest)
    } else {
        number_from(10, word)
    }
}

#[tactic(auto, unfolding(crate::specs::NumberWords::number_after_zero))]
fn number_after_zero(rest: &[u8]) -> Option<u64>
    ensures { result ≡ number_after_zero rest.now }
{
    let Some((x, digits)) = rest.split_first() else {
        return Some(0);
    };
    if *x != b'x' || digits.is_empty() {
        return None;
    }
    number_from(16, digits)
}

/// The id that a word is, if it is one, of a process, an lwp, a controller or a handle: a number below 2^32.
#[tactic(auto, unfolding(crate::specs::NumberWords::id_of))]
pub fn id_of(word: &[u8]) -> Option<u32>
    ensures { result ≡ id_of word.now }
{
    let n = number_of(word)?;
    if n <= u32::MAX as u64 {
        Some(n as u32)
    } else {
        None
    }
}
