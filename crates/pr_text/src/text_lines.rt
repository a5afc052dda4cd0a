//! The lines of a text.
ghost use Rattle.std.specs.Prelude.{◌≡◌, map, IfOk};
ghost use Rattle.pr_text.specs.TextLines.{lines_of};

use crate::cuts::pieces_of;
use pr_num::NoMemory;
use std::alloc::Global;

/// The lines of a text, without the newlines that end them. The last line may lack its newline; where it has one, an
/// empty line stands last.
pub fn split_lines(alloc: Global, text: &[u8]) -> Result<Vec<&[u8]>, NoMemory>
    ensures { IfOk result (λ lines. map (λ line. line.now) lines.items ≡ lines_of text.now) }
{
    pieces_of(alloc, text, b'\n')
}
