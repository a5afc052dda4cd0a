//! Numbers in decimal, read from their words.
ghost use Rattle.std.specs.Prelude.{◌≡◌};
ghost use Rattle.pr_plain.specs.DecimalWords.{begins_hex, decimal_of, decimal_id_of};

/// Whether a word begins as a number in hex does.
fn begins_hex(word: &[u8]) -> bool
    ensures { result ≡ begins_hex word.now }
{
    match word {
        [_, b'x', ..] => true,
        _ => false,
    }
}

/// The number that a word is, in decimal without leading zeros.
#[tactic(auto, unfolding(crate::specs::DecimalWords::decimal_of))]
pub fn decimal_of(word: &[u8]) -> Option<u64>
    ensures { result ≡ decimal_of word.now }
{
    if begins_hex(word) {
        return None;
    }
    pr_text::number_of(word)
}

/// The same of a number below 2^32.
#[tactic(auto, unfolding(crate::specs::DecimalWords::decimal_id_of))]
pub fn decimal_id_of(word: &[u8]) -> Option<u32>
    ensures { result ≡ decimal_id_of word.now }
{
    if begins_hex(word) {
        return None;
    }
    pr_text::id_of(word)
}
