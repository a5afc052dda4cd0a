//! The text of a core.
ghost use Rattle.std.specs.Prelude.{◌≡◌, ◌++◌, OnOk};
ghost use Rattle.pr_core.specs.CoreText.{core_text, hex_lines, lines_of, line_bytes};

use pr_num::NoMemory;
use pr_text::{Text, put_digits};
use pr_tools::end_line;

/// How many bytes a line has.
const LINE: usize = 1_024;

/// The lines of bytes in hex; the last has the rest.
fn push_lines(text: &mut Text, bytes: &[u8]) -> Result<(), NoMemory>
    ensures { OnOk result (text.new ≡ text.old ++ hex_lines (lines_of bytes.now) bytes.now) }
{
    let mut digits = [0; 2 * LINE];
    let mut rest = bytes;
    while !rest.is_empty() {
        let (line, others) = rest.split_at(rest.len().min(LINE));
        put_digits(&mut digits, line);
        text.text(&digits[..2 * line.len()])?;
        end_line(text)?;
        rest = others;
    }
    Ok(())
}

/// The text of a core of these bytes.
#[tactic(auto, unfolding(crate::specs::CoreText::core_text))]
pub(crate) fn push_core(text: &mut Text, bytes: &[u8]) -> Result<(), NoMemory>
    ensures { OnOk result (text.new ≡ text.old ++ core_text bytes.now) }
{
    text.text(b"core ")?;
    text.decimal(bytes.len() as u64)?;
    end_line(text)?;
    push_lines(text, bytes)
}
