//! Bits of words.
ghost use Rattle.std.specs.Prelude.{◌≡◌, ◌≤◌, ◌<◌, ℕ, IfSome, IfNone};
ghost use Rattle.std.specs.Int.{bit_at};

/// The lowest bit of a word that is 1, from one on.
pub fn first_bit(word: u64, low: u32) -> Option<u32>
    requires { low < 64 }
    ensures member { IfSome result (λ bit. bit_at word bit ≡ 1) }
    ensures behind { IfSome result (λ bit. low ≤ bit) }
    ensures within { IfSome result (λ bit. bit < 64) }
    ensures least { IfSome result (λ bit. (i : ℕ) → low ≤ i → i < bit → bit_at word i ≡ 0) }
    ensures none { IfNone result ((i : ℕ) → low ≤ i → i < 64 → bit_at word i ≡ 0) }
{
    let rest = word >> low;
    if rest == 0 {
        return None;
    }
    Some(low + rest.trailing_zeros())
}
