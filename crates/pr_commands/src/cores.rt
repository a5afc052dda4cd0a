//! What the command `core` answers to an input.
ghost use Rattle.std.specs.Prelude.{◌≡◌, ◌≤◌, ◌<◌, ◌^◌, length, None, IfSome};
ghost use Rattle.pr_core.specs.CoreBytes.{core_bytes};
ghost use Rattle.pr_core.specs.CoreRanges.{IsCore};
ghost use Rattle.pr_commands.specs.Answers.{MayShowCore, ShowsCore, text_written};
ghost use Rattle.pr_commands.specs.CoreInputs.{core_limit};
ghost use Rattle.pr_commands.specs.Giving.{Responds, RespondsOne};
ghost use Rattle.pr_commands.specs.Histories.{RanOutEarly, no_run};

use crate::answers::{status_after, write_pieces};
use crate::core_inputs::{CoreInput, core_of_input};
use crate::judgements::refuse_wrong;
use crate::outcomes::{Ending, Status, out_of_memory, without_history};
use crate::wrongs::Misread;
use pr_core::tool_over_core;
use pr_io::Sink;
use pr_model::{History, ToolKind};
use pr_num::Bytes;
use std::alloc::Global;

/// Writes a text, and is done.
fn tell<K: Sink>(alloc: Global, text: &[u8], sink: &mut K) -> Ending
    ensures { Responds (text_written text.now) ⊥ result.status result.history.entries
        (K.written sink.old) (K.written sink.new) (K.faults sink.old) (K.faults sink.new) }
{
    let pieces = [text];
    let written = write_pieces(sink, &pieces);
    without_history(alloc, status_after(written, Status::Done))
}

/// Writes the text of a tool over a core.
fn show_tool<K: Sink>(alloc: Global, kind: ToolKind, input: CoreInput, sink: &mut K) -> Ending
    requires core { IsCore input.core }
    requires fits { length (core_bytes input.core) < 2 ^ 64 }
    ensures { RespondsOne (ShowsCore kind input.programs.items (core_bytes input.core))
        (RanOutEarly no_run None result.history.entries (K.written sink.old) (K.written sink.new))
        result.status result.history.entries
        (K.written sink.old) (K.written sink.new) (K.faults sink.old) (K.faults sink.new) }
{
    match tool_over_core(alloc, kind, &input.core, &input.programs) {
        Ok(text) => tell(alloc, text.as_slice(), sink),
        Err(error) => out_of_memory(error, History::new(alloc)),
    }
}

/// Answers an input: it is refused, or a tool shows its core.
pub fn show_core<K: Sink>(
    alloc: Global,
    kind: ToolKind,
    input: Option<Bytes>,
    sink: &mut K,
) -> Ending
    requires { IfSome input (λ bytes. length bytes ≤ core_limit) }
    ensures { RespondsOne (MayShowCore kind input)
        (RanOutEarly no_run input result.history.entries (K.written sink.old) (K.written sink.new))
        result.status result.history.entries
        (K.written sink.old) (K.written sink.new) (K.faults sink.old) (K.faults sink.new) }
{
    match core_of_input(alloc, input) {
        Ok(read) => show_tool(alloc, kind, read, sink),
        Err(Misread::Wrong(wrong)) => refuse_wrong(alloc, wrong, sink),
        Err(Misread::NoMemory) => without_history(alloc, Status::OutOfMemory),
    }
}
