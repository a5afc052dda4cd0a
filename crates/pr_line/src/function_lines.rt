//! The line of a call of a function.
ghost use Rattle.std.specs.Prelude.{◌≡◌, ◌<◌, ◌≤◌, ◌+◌, ◌++◌, ◌↔◌, [], length, take, IsOk, IsErr, OnOk, OnErr};
ghost use Rattle.pr_num.specs.Limits.{line_limit, name_limit};
ghost use Rattle.pr_text.specs.Numerals.{hex_text};
ghost use Rattle.pr_line.specs.FunctionLines.{hex_after, three_text, called_text, function_text};

use crate::Options;
use crate::event_lines::prefix;
use pr_num::Name;
use pr_text::{Line, TooLong};

/// Appends a text and a number in hex.
#[tactic(auto, using(crate::proofs::LengthLemmas::hex_lengths))]
fn hex_after(line: &mut Line, label: &[u8], n: u64) -> Result<(), TooLong>
    ensures ok { OnOk result (line.new ≡ line.old ++ hex_after label.now n) }
    ensures too_long { IsErr result ↔ (line_limit < length line.old + length (hex_after label.now n)) }
    ensures short { length (hex_text n) ≤ 18 }
    ensures err { OnErr result (take (length line.old) line.new ≡ line.old) }
{
    line.text(label)?;
    line.hex(n)
}

/// Appends the first three arguments of a call.
#[tactic(auto, unfolding(crate::specs::FunctionLines::three_text))]
fn three_text(line: &mut Line, arguments: &[u64; 3]) -> Result<(), TooLong>
    ensures ok { OnOk result (line.new ≡ line.old ++ three_text arguments.now) }
    ensures too_long { IsErr result ↔ (line_limit < length line.old + length (three_text arguments.now)) }
    ensures short { length (three_text arguments.now) ≤ 60 }
    ensures err { OnErr result (take (length line.old) line.new ≡ line.old) }
{
    hex_after(line, b"(", arguments[0])?;
    hex_after(line, b", ", arguments[1])?;
    hex_after(line, b", ", arguments[2])?;
    line.text(b")")
}

/// Appends the call of a function.
#[tactic(auto, unfolding(crate::specs::FunctionLines::called_text))]
fn called_text(line: &mut Line, name: &[u8], arguments: &[u64; 3]) -> Result<(), TooLong>
    requires { length name.now ≤ name_limit }
    ensures ok { OnOk result (line.new ≡ line.old ++ called_text name.now arguments.now) }
    ensures too_long { IsErr result ↔ (line_limit < length line.old + length (called_text name.now arguments.now)) }
    ensures short { length (called_text name.now arguments.now) ≤ 100 }
    ensures err { OnErr result (take (length line.old) line.new ≡ line.old) }
{
    line.text(b"-> ")?;
    line.text(name)?;
    three_text(line, arguments)
}

/// Appends what stands before a call, and the call.
#[tactic(auto, unfolding(crate::specs::FunctionLines::function_text))]
fn whole_text(
    line: &mut Line,
    options: &Options,
    pid: u32,
    lwp: u32,
    name: &[u8],
    arguments: &[u64; 3],
) -> Result<(), TooLong>
    requires { length name.now ≤ name_limit }
    ensures ok { OnOk result (line.new ≡ line.old ++ function_text options.now pid lwp name.now arguments.now) }
    ensures too_long { IsErr result
        ↔ (line_limit < length line.old + length (function_text options.now pid lwp name.now arguments.now)) }
    ensures short { length (function_text options.now pid lwp name.now arguments.now) ≤ 200 }
    ensures err { OnErr result (take (length line.old) line.new ≡ line.old) }
{
    prefix(line, options.follow, options.lwps, pid, lwp)?;
    called_text(line, name, arguments)
}

/// Appends the line of a call of a function by an lwp of a process (truss(1)), without a newline: `-> NAME(0xA, 0xB,
/// 0xC)`. The arguments are r1 to r3. Never `TooLong` on an empty line.
pub fn function_line(
    line: &mut Line,
    options: &Options,
    pid: u32,
    lwp: u32,
    name: &Name,
    arguments: &[u64; 3],
) -> Result<(), TooLong>
    ensures ok { OnOk result (line.new ≡ line.old ++ function_text options.now pid lwp name.now arguments.now) }
    ensures too_long { IsErr result
        ↔ (line_limit < length line.old + length (function_text options.now pid lwp name.now arguments.now)) }
    ensures err { OnErr result (line.new ≡ line.old) }
    ensures never { line.old ≡ [] → IsOk result }
{
    let before = line.len();
    let done = whole_text(line, options, pid, lwp, name.as_slice(), arguments);
    if done.is_err() {
        line.truncate(before);
    }
    done
}
