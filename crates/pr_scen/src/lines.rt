//! Lines before their words are looked at, and the lines that begin and end blocks.
ghost use Rattle.std.specs.Prelude.{◌≡◌, ◌≤◌, length, OnOk};
ghost use Rattle.pr_num.specs.Limits.{line_limit};
ghost use Rattle.pr_text.specs.Words.{texts_of};
ghost use Rattle.pr_scen.specs.Lines.{is_ascii, readable, first_is, is_end};
ghost use Rattle.pr_scen.specs.Parts.{begins_block};

use crate::ScenKind;
use pr_num::limits::LINE_LIMIT;
use pr_text::Tokens;

#[tactic(auto, unfolding(crate::specs::Lines::is_ascii))]
fn is_ascii(line: &[u8]) -> bool
    ensures { result ≡ is_ascii line.now }
{
    line.iter().all(|b| *b < 128)
}

/// Whether a line can be read: it has at most 4,096 bytes, each of ASCII.
#[tactic(auto, unfolding(crate::specs::Lines::readable))]
pub fn readable(line: &[u8]) -> Result<(), ScenKind>
    ensures value { result ≡ readable line.now }
    ensures short { OnOk result (length line.now ≤ line_limit) }
{
    if line.len() > LINE_LIMIT {
        return Err(ScenKind::TooLong);
    }
    if !is_ascii(line) {
        return Err(ScenKind::NotAscii);
    }
    Ok(())
}

/// Whether the first of a line's words is this one.
fn first_is(word: &[u8], line: &[u8]) -> bool
    ensures { result ≡ first_is word.now (texts_of line.now) }
{
    let mut words = Tokens::of(line);
    match words.next() {
        Some(first) => first == word,
        None => false,
    }
}

/// Whether a line ends a block: its first word is `end`.
#[tactic(auto, unfolding(crate::specs::Lines::is_end))]
pub fn is_end(line: &[u8]) -> bool
    ensures { result ≡ is_end line.now }
{
    first_is(b"end", line)
}

/// Whether a line begins a block: its first word is `program` or `script`.
#[tactic(auto, unfolding(crate::specs::Parts::begins_block))]
pub fn begins_block(line: &[u8]) -> bool
    ensures { result ≡ begins_block line.now }
{
    first_is(b"program", line) || first_is(b"script", line)
}
