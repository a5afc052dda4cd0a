ghost use Rattle.std.specs.Prelude.{◌≡◌, map, string_bytes, true};
ghost use Rattle.pr_commands.specs.Commands.{work_of};
ghost use Rattle.pr_commands.specs.Histories.{HistoryIsKept};
ghost use Rattle.pr_commands.specs.Rows.{EndsWith, making_of, reads_nothing};
ghost use Rattle.pr_commands.specs.Statuses.{number};
ghost use Rattle.pr_ends.specs.Ends.{ends_of};

use pr_commands::{Ending, carry_out, number, work_of};
use pr_io::{Gate, Sink, Source};
use pr_model::History;
use std::alloc::Global;
use std::sync::Wait;
use std::thread::Threads;

/// What a call of the program leaves besides what it wrote.
#[derive(Drop)]
pub struct Outcome {
    /// The status that the process ends with.
    pub status: u8,
    /// The history of the run; empty where none was made.
    pub history: History,
}

/// Does what the words after the program's name ask for, from `source` to `sink`. The workers of a run on several
/// threads pass `gate` before each of their turns.
///
/// `run`, `run -q` and `plain` make the run of a scenario on one thread; `run -j N`, with or without `-q`, makes it on
/// several, waits for them, and ends as a run does in which the actors moved in some order; `check` says whether a
/// history is legal; `core TOOL` writes what a tool shows of a core; `gen N` writes a scenario, reads nothing and takes
/// no memory. Status 0, 3 and 4 of a run: it was made and written; no actor could move and all controllers had
/// finished, or the history had all its entries, or no actor could move and a controller had not finished. Status 0 and
/// 8 of `check`: all entries are legal, or one is not. Status 0 of `core`: the text was written. Status 2: the input
/// was refused. Status 5: a read failed. Status 6: a write failed. Status 7: memory ran out. All other words get the
/// usage line and status 1, or 6 where a write failed; nothing is read then, and no memory taken.
pub fn serve<R: Threads + Wait + Sync, S: Source, K: Sink, G: Gate + Sync>(
    rt: &R,
    alloc: Global,
    words: &[String],
    source: &mut S,
    sink: &mut K,
    gate: &G,
) -> Outcome
    // What was read and written, the status and the history are those of the row of the command. An input that is a
    // scenario is run, and the status says how that ended; one that is a scenario and a history is judged; of one that
    // is programs and a core the text of the tool over that core is written.
    ensures ends { EndsWith (work_of (map string_bytes words.now))
        (ends_of S.left S.faults K.written K.faults source.old sink.old)
        (ends_of S.left S.faults K.written K.faults source.new sink.new)
        result.status result.history.entries }

    // The usage line and a scenario that is written leave the source alone.
    ensures unread { reads_nothing (work_of (map string_bytes words.now)) ≡ true → source.new ≡ source.old }

    // However the call ends, there is no history, or it is that of a run. Then it is legal and follows the protocol;
    // where it is passive, or no controller is a script, asks by an agent or shows calls of functions, tracing is
    // transparent in it; where other calls are passive, programs leave breakpoints and agents alone, and those who hide
    // these are tidy, programs see nothing of them, and what `plain` writes of it is a run of the machine without
    // controllers; each truss has shown of each process exactly the selected events that came while it had hold of it,
    // as `ShowsHeld` says, on the conditions of `ShowsItsEvents`, and all else that `IsTrussKept` says is so of it, or,
    // where it shows calls of functions, what `IsFunctionTrussKept` says; the memory in a line is that of the state in
    // which truss read it; and each tool that has finished, and was not refused, prints what stands in one state.
    ensures kept { HistoryIsKept (making_of (work_of (map string_bytes words.now))) (S.left source.old)
        (S.left source.new) result.history.entries }
{
    outcome_of(carry_out(rt, alloc, work_of(words), source, sink, gate))
}

// The outcome of a call that ended so.
fn outcome_of(ending: Ending) -> Outcome
    ensures status { result.status ≡ number ending.status }
    ensures history { result.history ≡ ending.history }
{
    Outcome {
        status: number(ending.status),
        history: ending.history,
    }
}
