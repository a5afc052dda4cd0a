//! The arguments of a call in its line.
ghost use Rattle.std.specs.Prelude.{◌≡◌, ◌≤◌, ◌<◌, ◌+◌, ◌++◌, ◌↔◌, false, length, take, position, IsErr, OnOk, OnErr};
ghost use Rattle.pr_num.specs.Padding.{is_zero};
ghost use Rattle.pr_num.specs.Limits.{line_limit};
ghost use Rattle.pr_text.specs.Quotes.{quoted_text};
ghost use Rattle.pr_line.specs.ArgumentTexts.{came_of, text_before, text_argument, bytes_argument, buffer_argument, argument_text, separator, arguments_text};

use pr_num::{ArgKind, zero_in};
use pr_text::{Line, TooLong};

/// What a read of memory gave: the bytes that came, and whether they are fewer than were asked for.
pub type Came<'a> = Option<(&'a [u8], bool)>;

/// A text in quotes: what stands before its zero byte, or all that came.
fn text_before(line: &mut Line, bytes: &[u8]) -> Result<(), TooLong>
    ensures ok { OnOk result (line.new ≡ line.old ++ text_before bytes.now (position is_zero bytes.now)) }
    ensures too_long { IsErr result
        ↔ (line_limit < length line.old + length (text_before bytes.now (position is_zero bytes.now))) }
    ensures err { OnErr result (line.new ≡ line.old) }
{
    match zero_in(bytes) {
        None => line.quoted(bytes, true),
        Some(end) => line.quoted(&bytes[..end], false),
    }
}

/// An argument that is the address of a text.
#[tactic(auto, unfolding(crate::specs::ArgumentTexts::text_argument))]
fn text_argument(line: &mut Line, text: Came<'_>, address: u64) -> Result<(), TooLong>
    ensures ok { OnOk result (line.new ≡ line.old ++ text_argument (came_of text.entry) address) }
    ensures too_long { IsErr result
        ↔ (line_limit < length line.old + length (text_argument (came_of text.entry) address)) }
    ensures err { OnErr result (line.new ≡ line.old) }
{
    match text {
        None => line.hex(address),
        Some((bytes, _)) => text_before(line, bytes),
    }
}

/// The bytes of a buffer, or its address where none came.
fn bytes_argument(line: &mut Line, text: Came<'_>, address: u64) -> Result<(), TooLong>
    ensures ok { OnOk result (line.new ≡ line.old ++ bytes_argument (came_of text.entry) address) }
    ensures too_long { IsErr result
        ↔ (line_limit < length line.old + length (bytes_argument (came_of text.entry) address)) }
    ensures err { OnErr result (line.new ≡ line.old) }
{
    match text {
        None => line.hex(address),
        Some((bytes, short)) => line.quoted(bytes, short),
    }
}

/// An argument that is the address of a buffer, which shows so many bytes.
#[tactic(auto, unfolding(crate::specs::ArgumentTexts::buffer_argument))]
fn buffer_argument(
    line: &mut Line,
    size: Option<u64>,
    text: Came<'_>,
    address: u64,
) -> Result<(), TooLong>
    ensures ok { OnOk result (line.new ≡ line.old ++ buffer_argument size (came_of text.entry) address) }
    ensures too_long { IsErr result
        ↔ (line_limit < length line.old + length (buffer_argument size (came_of text.entry) address)) }
    ensures err { OnErr result (line.new ≡ line.old) }
{
    match size {
        None => line.hex(address),
        Some(0) => line.quoted(b"", false),
        Some(_) => bytes_argument(line, text, address),
    }
}

/// An argument.
#[tactic(auto, unfolding(crate::specs::ArgumentTexts::argument_text))]
fn argument(
    line: &mut Line,
    size: Option<u64>,
    text: Came<'_>,
    kind: ArgKind,
    value: u64,
) -> Result<(), TooLong>
    ensures ok { OnOk result (line.new ≡ line.old ++ argument_text size (came_of text.entry) kind value) }
    ensures too_long { IsErr result
        ↔ (line_limit < length line.old + length (argument_text size (came_of text.entry) kind value)) }
    ensures err { OnErr result (line.new ≡ line.old) }
{
    match kind {
        ArgKind::Dec => line.dec(value),
        ArgKind::Hex => line.hex(value),
        ArgKind::Text => text_argument(line, text, value),
        ArgKind::Buf => buffer_argument(line, size, text, value),
    }
}

/// What stands before an argument.
fn separator(place: usize) -> &'static [u8]
    ensures { result.now ≡ separator place }
{
    if place == 0 { b"" } else { b", " }
}

/// The arguments of a call. Where the line is too long it leaves part of them.
#[tactic(auto, unfolding(crate::specs::ArgumentTexts::arguments_text))]
pub fn arguments_text(
    line: &mut Line,
    size: Option<u64>,
    text: Came<'_>,
    arguments: &[u64; 6],
    kinds: &[ArgKind],
) -> Result<(), TooLong>
    requires { length kinds.now ≤ 6 }
    ensures ok { OnOk result (line.new ≡ line.old ++ arguments_text size (came_of text.entry) arguments.now kinds.now 0) }
    ensures too_long { IsErr result
        ↔ (line_limit < length line.old + length (arguments_text size (came_of text.entry) arguments.now kinds.now 0)) }
    ensures err { OnErr result (take (length line.old) line.new ≡ line.old) }
{
    // Read for its contract: the line is within its limit, also where there are no arguments to append.
    let _within = line.len();
    for (i, kind) in kinds.iter().enumerate() {
        line.text(separator(i))?;
        argument(line, size, text, *kind, arguments[i])?;
    }
    Ok(())
}
