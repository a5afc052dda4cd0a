//! Commands from a source to a sink.
ghost use Rattle.std.specs.Prelude.{◌≡◌, ◌≤◌, [], true};
ghost use Rattle.pr_ends.specs.Ends.{ends_of};
ghost use Rattle.pr_num.specs.Limits.{checked_limit, scenario_limit, worker_limit};
ghost use Rattle.pr_commands.specs.Answers.{MayAnswer, MayShowCore, answer_to, check_of, plain_shown, run_text_of};
ghost use Rattle.pr_commands.specs.Commands.{HasWorkers};
ghost use Rattle.pr_commands.specs.CoreInputs.{core_limit};
ghost use Rattle.pr_commands.specs.Histories.{HistoryIsKept, by_threads, in_rounds, no_run};
ghost use Rattle.pr_commands.specs.Rows.{DoesWork, EndsBy, IsThe, Reads, making_of, reads_nothing, row_of};

use crate::answers::{explain, generate};
use crate::commands::Work;
use crate::core_inputs::CORE_LIMIT;
use crate::cores::show_core;
use crate::judgements::judge_input;
use crate::outcomes::{Ending, Status, without_history};
use crate::responses::respond;
use crate::sharing::share;
use crate::stripping::strip_input;
use pr_ends::{Unread, take_input};
use pr_io::{Gate, Sink, Source};
use pr_model::ToolKind;
use pr_num::limits::{CHECKED_LIMIT, SCENARIO_LIMIT};
use pr_output::Showing;
use std::alloc::Global;
use std::sync::Wait;
use std::thread::Threads;

/// An end where the input was not read.
fn without_input(alloc: Global, unread: Unread) -> Ending
    ensures failed { unread ≡ Unread.Failed → result.status ≡ Status.ReadFailed }
    ensures memory { unread ≡ Unread.NoMemory → result.status ≡ Status.OutOfMemory }
    ensures history { result.history.entries ≡ [] }
{
    match unread {
        Unread::Failed => without_history(alloc, Status::ReadFailed),
        Unread::NoMemory => without_history(alloc, Status::OutOfMemory),
    }
}

/// Reads a scenario, makes its run on one thread, and writes what is to be shown of it; or writes why the input is
/// refused.
fn run<S: Source, K: Sink>(alloc: Global, showing: Showing, source: &mut S, sink: &mut K) -> Ending
    ensures { Reads scenario_limit (IsThe (answer_to (run_text_of showing))) in_rounds
        (ends_of S.left S.faults K.written K.faults source.old sink.old)
        (ends_of S.left S.faults K.written K.faults source.new sink.new)
        result.status result.history.entries }
{
    match take_input(alloc, source, SCENARIO_LIMIT) {
        Ok(input) => respond(alloc, showing, input, sink),
        Err(unread) => without_input(alloc, unread),
    }
}

/// Reads a scenario, makes its run on one thread, and writes what programs see of it; or writes why the input is
/// refused.
fn strip<S: Source, K: Sink>(alloc: Global, source: &mut S, sink: &mut K) -> Ending
    ensures { Reads scenario_limit (IsThe (answer_to plain_shown)) in_rounds
        (ends_of S.left S.faults K.written K.faults source.old sink.old)
        (ends_of S.left S.faults K.written K.faults source.new sink.new)
        result.status result.history.entries }
{
    match take_input(alloc, source, SCENARIO_LIMIT) {
        Ok(input) => strip_input(alloc, input, sink),
        Err(unread) => without_input(alloc, unread),
    }
}

/// Reads a scenario, makes its run on threads, of which so many share the processor, and writes what is to be shown of
/// it; or writes why the input is refused.
fn run_on_threads<R: Threads + Wait + Sync, S: Source, K: Sink, G: Gate + Sync>(
    rt: &R,
    alloc: Global,
    showing: Showing,
    workers: u32,
    source: &mut S,
    sink: &mut K,
    gate: &G,
) -> Ending
    requires some { 1 ≤ workers }
    requires most { workers ≤ worker_limit }
    ensures { Reads scenario_limit (MayAnswer showing) by_threads
        (ends_of S.left S.faults K.written K.faults source.old sink.old)
        (ends_of S.left S.faults K.written K.faults source.new sink.new)
        result.status result.history.entries }
{
    match take_input(alloc, source, SCENARIO_LIMIT) {
        Ok(input) => share(rt, alloc, showing, workers, input, sink, gate),
        Err(unread) => without_input(alloc, unread),
    }
}

/// Reads a scenario and a history, and says whether the history is legal, or why the input is refused.
fn check<S: Source, K: Sink>(alloc: Global, source: &mut S, sink: &mut K) -> Ending
    ensures { Reads checked_limit (IsThe check_of) no_run
        (ends_of S.left S.faults K.written K.faults source.old sink.old)
        (ends_of S.left S.faults K.written K.faults source.new sink.new)
        result.status result.history.entries }
{
    match take_input(alloc, source, CHECKED_LIMIT) {
        Ok(input) => judge_input(alloc, input, sink),
        Err(unread) => without_input(alloc, unread),
    }
}

/// Reads programs and a core, and writes the text of a tool over the core, or why the input is refused.
fn show_over_core<S: Source, K: Sink>(
    alloc: Global,
    kind: ToolKind,
    source: &mut S,
    sink: &mut K,
) -> Ending
    ensures { Reads core_limit (MayShowCore kind) no_run
        (ends_of S.left S.faults K.written K.faults source.old sink.old)
        (ends_of S.left S.faults K.written K.faults source.new sink.new)
        result.status result.history.entries }
{
    match take_input(alloc, source, CORE_LIMIT) {
        Ok(input) => show_core(alloc, kind, input, sink),
        Err(unread) => without_input(alloc, unread),
    }
}

/// Does a piece of work: how it ends is said by its row. Only a run on several threads waits, for these.
#[tactic(auto, unfolding(crate::specs::Rows::row_of))]
pub fn carry_out<R: Threads + Wait + Sync, S: Source, K: Sink, G: Gate + Sync>(
    rt: &R,
    alloc: Global,
    work: Work,
    source: &mut S,
    sink: &mut K,
    gate: &G,
) -> Ending
    requires workers { HasWorkers work }
    ensures ends { EndsBy (row_of work)
        (ends_of S.left S.faults K.written K.faults source.old sink.old)
        (ends_of S.left S.faults K.written K.faults source.new sink.new)
        result.status result.history.entries }
    ensures unread { reads_nothing work ≡ true → source.new ≡ source.old }
    ensures does_work { DoesWork work
        (ends_of S.left S.faults K.written K.faults source.old sink.old)
        (ends_of S.left S.faults K.written K.faults source.new sink.new)
        result.status result.history.entries }
    ensures kept { HistoryIsKept (making_of work) (S.left source.old) (S.left source.new) result.history.entries }
{
    match work {
        Work::Explains => explain(alloc, sink),
        Work::Generates { children } => generate(alloc, children, sink),
        Work::Runs { showing } => run(alloc, showing, source, sink),
        Work::Shares { showing, workers } => {
            run_on_threads(rt, alloc, showing, workers, source, sink, gate)
        }
        Work::Strips => strip(alloc, source, sink),
        Work::Checks => check(alloc, source, sink),
        Work::ShowsCore { kind } => show_over_core(alloc, kind, source, sink),
    }
}
