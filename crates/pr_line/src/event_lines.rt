//! The line of an event.
ghost use Rattle.std.specs.Prelude.{◌≡◌, ◌<◌, ◌≤◌, ◌+◌, ◌++◌, ◌↔◌, [], length, take, decimal, IsOk, IsErr, OnOk, OnErr};
ghost use Rattle.pr_num.specs.Limits.{line_limit};
ghost use Rattle.pr_line.specs.ArgumentTexts.{came_of};
ghost use Rattle.pr_line.specs.EventLines.{prefix, call_text, entry_text, result_text, disposition_text, info_text, signal_text, fault_text, happening_text, told_text, event_text};

use crate::arguments::{Came, arguments_text};
use crate::text_ranges::buffer_size;
use crate::{Event, Options, event_of, has_line};
use pr_num::{Errno, Flt, Info, Sig, Sysno};
use pr_rec::{Disposition, LwpStatus};
use pr_text::{Line, TooLong};

/// Appends a text and a number.
#[tactic(auto, using(crate::proofs::LengthLemmas::lengths))]
fn labelled(line: &mut Line, label: &[u8], n: u64) -> Result<(), TooLong>
    ensures ok { OnOk result (line.new ≡ line.old ++ (label.now ++ decimal n)) }
    ensures too_long { IsErr result ↔ (line_limit < length line.old + length (label.now ++ decimal n)) }
    ensures short { length (decimal n) ≤ 20 }
    ensures err { OnErr result (take (length line.old) line.new ≡ line.old) }
{
    line.text(label)?;
    line.dec(n)
}

/// Appends a number and a name of an entry of a table, with a text before each.
fn entry(
    line: &mut Line,
    label: &[u8],
    number: u64,
    separator: &[u8],
    name: &[u8],
) -> Result<(), TooLong>
    ensures ok { OnOk result (line.new ≡ line.old ++ entry_text label.now number separator.now name.now) }
    ensures too_long { IsErr result
        ↔ (line_limit < length line.old + length (entry_text label.now number separator.now name.now)) }
    ensures err { OnErr result (take (length line.old) line.new ≡ line.old) }
{
    labelled(line, label, number)?;
    line.text(separator)?;
    line.text(name)
}

/// What stands before an event.
#[tactic(auto, unfolding(crate::specs::EventLines::prefix), using(crate::proofs::LengthLemmas::lengths))]
pub(crate) fn prefix(
    line: &mut Line,
    follow: bool,
    lwps: bool,
    pid: u32,
    id: u32,
) -> Result<(), TooLong>
    ensures ok { OnOk result (line.new ≡ line.old ++ prefix follow lwps pid id) }
    ensures too_long { IsErr result ↔ (line_limit < length line.old + length (prefix follow lwps pid id)) }
    ensures short { length (prefix follow lwps pid id) ≤ 50 }
    ensures err { OnErr result (take (length line.old) line.new ≡ line.old) }
{
    // Read for its contract: the line is within its limit, also where there is nothing to append.
    let _within = line.len();
    match (follow, lwps) {
        (false, false) => Ok(()),
        (true, false) => {
            line.dec(u64::from(pid))?;
            line.text(b": ")
        }
        (false, true) => {
            labelled(line, b"/", u64::from(id))?;
            line.text(b": ")
        }
        (true, true) => {
            line.dec(u64::from(pid))?;
            labelled(line, b"/", u64::from(id))?;
            line.text(b": ")
        }
    }
}

/// A call with its arguments.
#[tactic(auto, unfolding(crate::specs::EventLines::call_text), using(crate::proofs::LengthLemmas::few_arguments))]
fn call_text(
    line: &mut Line,
    call: Sysno,
    arguments: &[u64; 6],
    size: Option<u64>,
    text: Came<'_>,
) -> Result<(), TooLong>
    ensures ok { OnOk result (line.new ≡ line.old ++ call_text call arguments.now size (came_of text.entry)) }
    ensures too_long { IsErr result
        ↔ (line_limit < length line.old + length (call_text call arguments.now size (came_of text.entry))) }
    ensures short { length (call_text call arguments.now size (came_of text.entry)) ≤ 800 }
    ensures err { OnErr result (take (length line.old) line.new ≡ line.old) }
{
    line.text(call.name().as_bytes())?;
    line.text(b"(")?;
    arguments_text(line, size, text, arguments, call.args())?;
    line.text(b")")
}

/// What a call gave.
#[tactic(auto, unfolding(crate::specs::EventLines::result_text), using(crate::proofs::LengthLemmas::lengths))]
fn result_text(line: &mut Line, given: Result<u64, Errno>) -> Result<(), TooLong>
    ensures ok { OnOk result (line.new ≡ line.old ++ result_text given) }
    ensures too_long { IsErr result ↔ (line_limit < length line.old + length (result_text given)) }
    ensures short { length (result_text given) ≤ 30 }
    ensures err { OnErr result (take (length line.old) line.new ≡ line.old) }
{
    match given {
        Ok(value) => labelled(line, b" = ", value),
        Err(errno) => entry(
            line,
            b" Err#",
            errno.number(),
            b" ",
            errno.name().as_bytes(),
        ),
    }
}

#[tactic(auto, unfolding(crate::specs::EventLines::disposition_text))]
fn disposition_text(disposition: Disposition) -> &'static [u8]
    ensures { result.now ≡ disposition_text disposition }
{
    match disposition {
        Disposition::Default => b"default",
        Disposition::Ignored => b"ignored",
        Disposition::Caught => b"caught",
    }
}

/// Where a signal came from.
#[tactic(auto, unfolding(crate::specs::EventLines::info_text))]
fn info_text(line: &mut Line, info: Info) -> Result<(), TooLong>
    ensures ok { OnOk result (line.new ≡ line.old ++ info_text info) }
    ensures too_long { IsErr result ↔ (line_limit < length line.old + length (info_text info)) }
    ensures room { OnErr result (line_limit < length line.old + 80) }
    ensures err { OnErr result (take (length line.old) line.new ≡ line.old) }
{
    labelled(line, b" code ", info.code)?;
    labelled(line, b" pid ", info.pid)?;
    labelled(line, b" value ", info.value)
}

/// A signal that was taken.
#[tactic(auto, unfolding(crate::specs::EventLines::signal_text), using(crate::proofs::LengthLemmas::lengths))]
fn signal_text(line: &mut Line, signal: Sig, disposition: Disposition) -> Result<(), TooLong>
    ensures ok { OnOk result (line.new ≡ line.old ++ signal_text signal disposition) }
    ensures too_long { IsErr result ↔ (line_limit < length line.old + length (signal_text signal disposition)) }
    ensures short { length (signal_text signal disposition) ≤ 40 }
    ensures err { OnErr result (take (length line.old) line.new ≡ line.old) }
{
    entry(
        line,
        b"Received signal #",
        signal.number(),
        b", ",
        signal.name().as_bytes(),
    )?;
    line.text(b" [")?;
    line.text(disposition_text(disposition))?;
    line.text(b"]")
}

/// A fault that was incurred.
#[tactic(auto, unfolding(crate::specs::EventLines::fault_text), using(crate::proofs::LengthLemmas::lengths))]
fn fault_text(line: &mut Line, fault: Flt, pc: u64) -> Result<(), TooLong>
    ensures ok { OnOk result (line.new ≡ line.old ++ fault_text fault pc) }
    ensures too_long { IsErr result ↔ (line_limit < length line.old + length (fault_text fault pc)) }
    ensures short { length (fault_text fault pc) ≤ 60 }
    ensures err { OnErr result (take (length line.old) line.new ≡ line.old) }
{
    entry(
        line,
        b"Incurred fault #",
        fault.number(),
        b", ",
        fault.name().as_bytes(),
    )?;
    line.text(b", pc = ")?;
    line.hex(pc)
}

/// What happened.
#[tactic(auto, unfolding(crate::specs::EventLines::happening_text))]
fn happening_text(line: &mut Line, event: &Event, text: Came<'_>) -> Result<(), TooLong>
    ensures ok { OnOk result (line.new ≡ line.old ++ happening_text event.now (came_of text.entry)) }
    ensures too_long { IsErr result
        ↔ (line_limit < length line.old + length (happening_text event.now (came_of text.entry))) }
    ensures room { OnErr result (line_limit < length line.old + 830) }
    ensures err { OnErr result (take (length line.old) line.new ≡ line.old) }
{
    match event {
        Event::Entered { call, arguments } => call_text(line, *call, arguments, None, None),
        Event::Left {
            call,
            arguments,
            result,
        } => {
            let size = buffer_size(*call, arguments, result.ok());
            call_text(line, *call, arguments, size, text)?;
            result_text(line, *result)
        }
        Event::Received {
            signal,
            disposition,
            info,
        } => {
            signal_text(line, *signal, *disposition)?;
            info_text(line, *info)
        }
        Event::Incurred { fault, pc } => fault_text(line, *fault, *pc),
    }
}

/// An event with what stands before it. Where the line is too long it leaves part of them.
#[tactic(auto, unfolding(crate::specs::EventLines::told_text))]
fn told_text(
    line: &mut Line,
    options: &Options,
    pid: u32,
    id: u32,
    event: &Event,
    text: Came<'_>,
) -> Result<(), TooLong>
    ensures ok { OnOk result (line.new ≡ line.old ++ told_text options.now pid id event.now (came_of text.entry)) }
    ensures too_long { IsErr result
        ↔ (line_limit < length line.old + length (told_text options.now pid id event.now (came_of text.entry))) }
    ensures room { OnErr result (line_limit < length line.old + 880) }
    ensures err { OnErr result (take (length line.old) line.new ≡ line.old) }
{
    prefix(line, options.follow, options.lwps, pid, id)?;
    happening_text(line, event, text)
}

/// Appends the line of the event that an lwp of a process stands on (truss(1)), without a newline; nothing where there
/// is no line. `text` is what the read of the memory gave that `text_range` asks for: the bytes that came, and whether
/// they are fewer than were asked for; `None` where it was refused or not made. Never `TooLong` on an empty line.
#[tactic(auto, unfolding(crate::specs::EventLines::event_text))]
pub fn event_line(
    line: &mut Line,
    options: &Options,
    pid: u32,
    status: &LwpStatus,
    text: Option<(&[u8], bool)>,
) -> Result<(), TooLong>
    ensures ok { OnOk result (line.new ≡ line.old ++ event_text options.now pid status.now (came_of text.entry)) }
    ensures too_long { IsErr result
        ↔ (line_limit < length line.old + length (event_text options.now pid status.now (came_of text.entry))) }
    ensures err { OnErr result (line.new ≡ line.old) }
    ensures never { line.old ≡ [] → IsOk result }
{
    let before = line.len();
    let Some(event) = event_of(status) else {
        return Ok(());
    };
    if !has_line(&event) {
        return Ok(());
    }
    let done = told_text(line, options, pid, status.id, &event, text);
    if done.is_err() {
        line.truncate(before);
    }
    done
}
