//! Bytes in pieces, cut at each byte of one kind.
ghost use Rattle.std.specs.Prelude.{◌≡◌, ◌==◌, map, IfOk};
ghost use Rattle.std.specs.List.{slice_split};

use pr_num::NoMemory;
use std::alloc::{AllocError, Global};

fn cut(alloc: Global, bytes: &[u8], at: u8) -> Result<Vec<&[u8]>, AllocError>
    ensures { IfOk result (λ pieces. map (λ piece. piece.now) pieces.items ≡ slice_split (λ b. b == at) bytes.now) }
{
    bytes.split(|b| *b == at).collect(alloc)
}

/// The pieces of bytes that stand before, between and after the bytes `at`. What has no such byte is one piece, and a
/// piece may be empty.
pub fn pieces_of(alloc: Global, bytes: &[u8], at: u8) -> Result<Vec<&[u8]>, NoMemory>
    ensures { IfOk result (λ pieces. map (λ piece. piece.now) pieces.items ≡ slice_split (λ b. b == at) bytes.now) }
{
    let pieces = cut(alloc, bytes, at)?;
    Ok(pieces)
}
