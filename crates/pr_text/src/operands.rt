//! Operands of the right number, for any kind of refusal.
ghost use Rattle.std.specs.Prelude.{◌≡◌};
ghost use Rattle.std.specs.Result.{result_map_both};
ghost use Rattle.pr_text.specs.Steps.{none, one, two, three, four, some};

use crate::Tokens;

/// No operand.
pub fn none<K: Copy>(mut operands: Tokens, kind: K) -> Result<(), K>
    ensures { result ≡ none kind operands.entry }
{
    match operands.next() {
        None => Ok(()),
        Some(_) => Err(kind),
    }
}

/// One operand, no more and no less.
pub fn one<K: Copy>(mut operands: Tokens<'_>, kind: K) -> Result<&[u8], K>
    ensures { result_map_both (λ a. a.now) (λ kind. kind) result ≡ one kind operands.entry }
{
    let a = operands.next().ok_or(kind)?;
    none(operands, kind)?;
    Ok(a)
}

/// Two operands, no more and no less.
pub fn two<K: Copy>(mut operands: Tokens<'_>, kind: K) -> Result<(&[u8], &[u8]), K>
    ensures { result_map_both (λ x. (x.0.now, x.1.now)) (λ kind. kind) result ≡ two kind operands.entry }
{
    let a = operands.next().ok_or(kind)?;
    let b = one(operands, kind)?;
    Ok((a, b))
}

/// Three operands, no more and no less.
pub fn three<K: Copy>(mut operands: Tokens<'_>, kind: K) -> Result<(&[u8], &[u8], &[u8]), K>
    ensures { result_map_both (λ x. (x.0.now, x.1.now, x.2.now)) (λ kind. kind) result ≡ three kind operands.entry }
{
    let a = operands.next().ok_or(kind)?;
    let (b, c) = two(operands, kind)?;
    Ok((a, b, c))
}

/// Four operands, no more and no less.
pub fn four<K: Copy>(mut operands: Tokens<'_>, kind: K) -> Result<(&[u8], &[u8], &[u8], &[u8]), K>
    ensures { result_map_both (λ x. (x.0.now, x.1.now, x.2.now, x.3.now)) (λ kind. kind) result
        ≡ four kind operands.entry }
{
    let a = operands.next().ok_or(kind)?;
    let (b, c, d) = three(operands, kind)?;
    Ok((a, b, c, d))
}

/// An operand, and those after it.
pub fn some<K: Copy>(mut operands: Tokens<'_>, kind: K) -> Result<(&[u8], Tokens<'_>), K>
    ensures { result_map_both (λ x. (x.0.now, x.1)) (λ kind. kind) result ≡ some kind operands.entry }
{
    let a = operands.next().ok_or(kind)?;
    Ok((a, operands))
}
