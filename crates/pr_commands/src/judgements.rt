//! What the command `check` answers to an input.

ghost use Rattle.std.specs.Prelude.{◌≤◌, length, IfSome};
ghost use Rattle.pr_num.specs.Limits.{checked_limit};
ghost use Rattle.pr_commands.specs.Answers.{check_of, judged, refused_for, said};
ghost use Rattle.pr_commands.specs.Giving.{Responds};
ghost use Rattle.pr_commands.specs.Histories.{RanOutEarly, no_run};
ghost use Rattle.pr_commands.specs.Statuses.{IsWhole};

use crate::answers::{status_after, write_pieces};
use crate::checks::finding_of_input;
use crate::outcomes::{Ending, Status, without_history};
use crate::responses::{refuse_at, refuse_input};
use crate::wrongs::{Misread, Wrong};
use itoa::Buffer;
use pr_io::Sink;
use pr_num::Bytes;
use std::alloc::Global;

const BAD_HISTORY: &[u8] = b"BadHistory";

const BAD_CORE: &[u8] = b"BadCore";

/// Says a number between two texts, and ends with a status that tells of no failure. Takes no memory.
fn say<K: Sink>(
    alloc: Global,
    before: &[u8],
    number: usize,
    behind: &[u8],
    status: Status,
    sink: &mut K,
) -> Ending
    requires { IsWhole status }
    ensures { Responds (said status before.now number behind.now) ⊥ result.status result.history.entries
        (K.written sink.old) (K.written sink.new) (K.faults sink.old) (K.faults sink.new) }
{
    let mut buffer = Buffer::new();
    let pieces = [before, buffer.format(number).as_bytes(), behind];
    let written = write_pieces(sink, &pieces);
    without_history(alloc, status_after(written, status))
}

/// Says whether a history of so many entries is legal, or which entry is the first that is not.
#[tactic(auto, unfolding(crate::specs::Answers::judged))]
fn say_judgement<K: Sink>(
    alloc: Global,
    entries: usize,
    first: Option<usize>,
    sink: &mut K,
) -> Ending
    ensures { Responds (judged entries first) ⊥ result.status result.history.entries
        (K.written sink.old) (K.written sink.new) (K.faults sink.old) (K.faults sink.new) }
{
    match first {
        None => say(alloc, b"legal ", entries, b"\n", Status::Done, sink),
        Some(place) => say(
            alloc,
            b"entry ",
            place,
            b": not legal\n",
            Status::NotLegal,
            sink,
        ),
    }
}

/// Answers an input of which a line is refused.
#[tactic(auto, unfolding(crate::specs::Answers::refused_for))]
pub fn refuse_wrong<K: Sink>(alloc: Global, wrong: Wrong, sink: &mut K) -> Ending
    ensures { Responds (refused_for wrong) ⊥ result.status result.history.entries
        (K.written sink.old) (K.written sink.new) (K.faults sink.old) (K.faults sink.new) }
{
    match wrong {
        Wrong::Scenario(fault) => refuse_at(alloc, fault, sink),
        Wrong::History(line) => refuse_input(alloc, line, BAD_HISTORY, sink),
        Wrong::Core(line) => refuse_input(alloc, line, BAD_CORE, sink),
    }
}

/// Answers an input: it is refused, or what is found of its history is said. The input is let go before that.
pub fn judge_input<K: Sink>(alloc: Global, input: Option<Bytes>, sink: &mut K) -> Ending
    requires { IfSome input (λ bytes. length bytes ≤ checked_limit) }
    ensures { Responds (check_of input)
        (RanOutEarly no_run input result.history.entries (K.written sink.old) (K.written sink.new))
        result.status result.history.entries
        (K.written sink.old) (K.written sink.new) (K.faults sink.old) (K.faults sink.new) }
{
    match finding_of_input(alloc, input) {
        Ok(finding) => say_judgement(alloc, finding.entries, finding.first, sink),
        Err(Misread::Wrong(wrong)) => refuse_wrong(alloc, wrong, sink),
        Err(Misread::NoMemory) => without_history(alloc, Status::OutOfMemory),
    }
}
