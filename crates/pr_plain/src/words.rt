//! Words on a line, each with a blank before it.
ghost use Rattle.std.specs.Prelude.{◌≡◌, ◌++◌, [], ◌∷◌, decimal, map, OnOk};
ghost use Rattle.pr_text.specs.LwpWords.{lwp_text};
ghost use Rattle.pr_text.specs.SpacedWords.{spaced};
ghost use Rattle.pr_plain.specs.HistoryText.{target_text};
ghost use Rattle.pr_text.specs.HexWords.{digits_of_bytes};
ghost use Rattle.pr_plain.specs.HexWords.{hex_word};
ghost use Rattle.pr_plain.specs.Buffers.{StartsWith};

use pr_text::put_digits;
use std::alloc::AllocError;

/// Appends bytes. All that is written is appended by this.
#[tactic(auto, using(crate::proofs::BufferLemmas::grown))]
pub fn append(out: &mut Vec<u8>, bytes: &[u8]) -> Result<(), AllocError>
    ensures all { OnOk result (out.new.items ≡ out.old.items ++ bytes.now) }
    ensures kept { StartsWith out.new.items out.old.items }
{
    out.extend_from_slice(bytes)
}

/// Adds a word to a line of which something stands: a blank, and its bytes. Where memory runs out, what was added stays
/// (`kept`), and the line is of no use.
#[tactic(auto, using(crate::proofs::BufferLemmas::kept), unfolding(pr_text::specs::SpacedWords::behind_blank))]
pub fn write_word(out: &mut Vec<u8>, word: &[u8]) -> Result<(), AllocError>
    ensures all { OnOk result (out.new.items ≡ out.old.items ++ spaced (word.now ∷ [])) }
    ensures kept { StartsWith out.new.items out.old.items }
{
    append(out, b" ")?;
    append(out, word)
}

/// Writes a number in decimal.
#[tactic(auto, using(crate::proofs::BufferLemmas::kept))]
pub fn write_number(out: &mut Vec<u8>, n: u64) -> Result<(), AllocError>
    ensures all { OnOk result (out.new.items ≡ out.old.items ++ spaced (decimal n ∷ [])) }
    ensures kept { StartsWith out.new.items out.old.items }
{
    write_word(out, itoa::Buffer::new().format(n).as_bytes())
}

/// Writes the digits of a number in decimal, with no blank before them.
#[tactic(auto, using(crate::proofs::BufferLemmas::kept))]
pub fn write_digits(out: &mut Vec<u8>, n: u64) -> Result<(), AllocError>
    ensures all { OnOk result (out.new.items ≡ out.old.items ++ decimal n) }
    ensures kept { StartsWith out.new.items out.old.items }
{
    append(out, itoa::Buffer::new().format(n).as_bytes())
}

/// Writes an lwp as its process, a slash and its own id, with no blank before them.
#[tactic(auto, using(crate::proofs::BufferLemmas::kept), unfolding(pr_text::specs::LwpWords::lwp_text))]
pub fn write_lwp(out: &mut Vec<u8>, pid: u32, lwp: u32) -> Result<(), AllocError>
    ensures all { OnOk result (out.new.items ≡ out.old.items ++ lwp_text pid lwp) }
    ensures kept { StartsWith out.new.items out.old.items }
{
    write_digits(out, pid as u64)?;
    append(out, b"/")?;
    write_digits(out, lwp as u64)
}

/// Writes whose file is opened as a word: a process, or its lwp where that is not 0.
#[tactic(auto, using(crate::proofs::BufferLemmas::kept), unfolding(pr_text::specs::SpacedWords::behind_blank, crate::specs::HistoryText::target_text))]
pub fn write_target(out: &mut Vec<u8>, pid: u32, lwp: u32) -> Result<(), AllocError>
    ensures all { OnOk result (out.new.items ≡ out.old.items ++ spaced (target_text pid lwp ∷ [])) }
    ensures kept { StartsWith out.new.items out.old.items }
{
    append(out, b" ")?;
    if lwp == 0 {
        write_digits(out, pid as u64)
    } else {
        write_lwp(out, pid, lwp)
    }
}

/// How many bytes become digits at a time.
const PIECE: usize = 256;

/// Writes bytes in hex, with no blank before them.
#[tactic(auto, using(crate::proofs::BufferLemmas::kept))]
fn write_bytes(out: &mut Vec<u8>, bytes: &[u8]) -> Result<(), AllocError>
    ensures all { OnOk result (out.new.items ≡ out.old.items ++ digits_of_bytes bytes.now) }
    ensures kept { StartsWith out.new.items out.old.items }
{
    let mut digits = [0; 2 * PIECE];
    let mut rest = bytes;
    while !rest.is_empty() {
        let (some, others) = rest.split_at(rest.len().min(PIECE));
        put_digits(&mut digits, some);
        append(out, &digits[..2 * some.len()])?;
        rest = others;
    }
    Ok(())
}

/// Writes bytes as a word of hex digits; no bytes are a dash.
#[tactic(auto, using(crate::proofs::BufferLemmas::kept), unfolding(pr_text::specs::SpacedWords::behind_blank, crate::specs::HexWords::hex_word))]
pub fn write_hex(out: &mut Vec<u8>, bytes: &[u8]) -> Result<(), AllocError>
    ensures all { OnOk result (out.new.items ≡ out.old.items ++ spaced (hex_word bytes.now ∷ [])) }
    ensures kept { StartsWith out.new.items out.old.items }
{
    if bytes.is_empty() {
        return write_word(out, b"-");
    }
    append(out, b" ")?;
    write_bytes(out, bytes)
}

/// Writes numbers in decimal.
#[tactic(auto, using(crate::proofs::BufferLemmas::kept))]
pub fn write_numbers(out: &mut Vec<u8>, numbers: &[u32]) -> Result<(), AllocError>
    ensures all { OnOk result (out.new.items ≡ out.old.items ++ spaced (map decimal numbers.now)) }
    ensures kept { StartsWith out.new.items out.old.items }
{
    for n in numbers {
        write_number(out, *n as u64)?;
    }
    Ok(())
}
