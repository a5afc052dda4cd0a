ghost use Rattle.std.specs.Prelude.{◌≡◌, ◌+◌, ◌*◌, ◌<◌, ◌≤◌, ◌^◌, length, map, IfOk};
ghost use Rattle.pr_core.specs.CoreBytes.{core_bytes};
ghost use Rattle.pr_core.specs.CoreRanges.{IsCore};
ghost use Rattle.pr_core.specs.CoreReading.{core_read};
ghost use Rattle.pr_core_text.specs.CoreTexts.{Answers, core_in, core_of, if_core, line_of};

use crate::CoreTextRefusal;
use crate::headings::size_in;
use crate::hex_lines::{HexBytes, LINE, read_bytes};
use pr_core::{Core, CoreFault};
use pr_text::split_lines;
use std::alloc::Global;

/// The line of the byte at a place, where the first line of bytes has the number `first`; or the line behind the text.
#[tactic(auto, unfolding(crate::specs::CoreTexts::line_of))]
fn line_of(first: u32, read: &HexBytes, at: usize) -> u32
    requires few { 1024 * first + length read.now.bytes ≤ 1024 * read.now.behind }
    requires small { read.now.behind < 2 ^ 32 }
    ensures { result ≡ line_of first read.now at }
{
    if at < read.bytes.len() {
        first + (at / LINE) as u32
    } else {
        read.behind
    }
}

/// The core of the bytes of a text, or the line with the byte at which reading them stops.
fn core_of_bytes(alloc: Global, first: u32, read: HexBytes) -> Result<Core, CoreTextRefusal>
    requires few { 1024 * first + length read.bytes ≤ 1024 * read.behind }
    requires small { read.behind < 2 ^ 32 }
    ensures read { Answers (λ core. core_bytes core) result (if_core first read (core_read read.bytes)) }
    ensures core { IfOk result IsCore }
    ensures fits { IfOk result (λ core. length (core_bytes core) < 2 ^ 64) }
{
    match Core::decode(alloc, &read.bytes) {
        Ok(core) => Ok(core),
        Err(CoreFault::NoMemory) => Err(CoreTextRefusal::NoMemory),
        Err(CoreFault::Short { at }) => Err(CoreTextRefusal::Line(line_of(first, &read, at))),
        Err(CoreFault::Bad { at }) => Err(CoreTextRefusal::Line(line_of(first, &read, at))),
    }
}

/// The core whose text lines begin with, which count from a number.
#[tactic(auto, unfolding(crate::specs::CoreTexts::core_in))]
fn read_lines(alloc: Global, number: u32, lines: &[&[u8]]) -> Result<Core, CoreTextRefusal>
    requires { number + length lines.now < 2 ^ 32 }
    ensures read { Answers (λ core. core_bytes core) result (core_in number (map (λ line. line.now) lines.now)) }
    ensures core { IfOk result IsCore }
    ensures fits { IfOk result (λ core. length (core_bytes core) < 2 ^ 64) }
{
    let Some((first, below)) = lines.split_first() else {
        return Err(CoreTextRefusal::Line(number));
    };
    let size = size_in(first).ok_or(CoreTextRefusal::Line(number))?;
    let read = read_bytes(alloc, number + 1, size, below)?;
    core_of_bytes(alloc, number + 1, read)
}

/// The core whose text a text begins with: a line `core N`, N the number of bytes, and the bytes in lines of hex of
/// 1,024 bytes each, the last with the rest. Or the first line that is damaged, where the lines count from
/// `first_line`; where the lines end too early that is the line behind the last. Or the line with the byte at which
/// reading the core stops, which is the line behind the text where a byte is wanted there. What follows the text is not
/// looked at.
#[tactic(auto, unfolding(crate::specs::CoreTexts::core_of))]
pub fn read_core(alloc: Global, text: &[u8], first_line: u32) -> Result<Core, CoreTextRefusal>
    requires { first_line + length text.now + 1 < 2 ^ 32 }
    ensures read { Answers (λ core. core_bytes core) result (core_of first_line text.now) }
    ensures core { IfOk result IsCore }
    ensures fits { IfOk result (λ core. length (core_bytes core) < 2 ^ 64) }
{
    let lines = split_lines(alloc, text)?;
    read_lines(alloc, first_line, &lines)
}
