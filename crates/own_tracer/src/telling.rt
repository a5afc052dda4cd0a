//! The program: a scenario is read, and the history of its run beside the injector is written.
ghost use Rattle.std.specs.Prelude.{◌≡◌, ◌≤◌, length, IfErr, IfOk, OnOk};
ghost use Rattle.pr_ends.specs.Ends.{ends_of};
ghost use Rattle.pr_io.specs.Reading.{ReadsAll};
ghost use Rattle.pr_num.specs.Limits.{scenario_limit};
ghost use Rattle.pr_scen.specs.Scenarios.{IsWithinLimits};
ghost use Rattle.own_tracer.specs.Running.{IsHistoryOf};
ghost use Rattle.own_tracer.specs.Telling.{EndsAs, CameOf, IsUnread, WasRead};

use crate::faults::Faults;
use crate::running::run;
use crate::statuses::Status;
use pr_actors::kern_of;
use pr_io::{ReadEnd, Sink, Source, read_all};
use pr_model::History;
use pr_num::limits::SCENARIO_LIMIT;
use pr_num::{Bytes, NoMemory};
use pr_output::{Cut, Showing, write_run};
use pr_scen::{ScenRefusal, Scenario, read_scenario};
use std::alloc::Global;

/// The process into which faults are injected.
const PID: u32 = 1;

/// The history of a scenario's programs, which run beside the injector. Its controllers and its schedule are left out.
fn history_of(alloc: Global, scenario: Scenario) -> Result<History, NoMemory>
    requires limits { IsWithinLimits scenario }
    ensures { IfOk result (λ history. IsHistoryOf scenario history.entries) }
{
    let turns = scenario.turns;
    let mut kern = kern_of(alloc, scenario, turns)?;
    run(&mut kern, alloc, PID, Faults::new(2, 2))?;
    Ok(kern.into_history())
}

/// Writes the history of a scenario, and answers with what status the program ends: it was written whole, a write
/// failed, or memory ran out.
fn tell<K: Sink>(alloc: Global, scenario: Scenario, sink: &mut K) -> Status
    requires limits { IsWithinLimits scenario }
    ensures { CameOf result scenario (K.written sink.old) (K.written sink.new) (K.faults sink.old) (K.faults sink.new) }
{
    let Ok(history) = history_of(alloc, scenario) else {
        return Status::OutOfMemory;
    };
    match write_run(alloc, sink, Showing::Whole, &history, &[], 0) {
        Ok(()) => Status::Done,
        Err(Cut::WriteFailed) => Status::WriteFailed,
        Err(Cut::NoMemory) => Status::OutOfMemory,
    }
}

/// Reads the input whole; else answers with what status the program ends: it is too long for a scenario, a read failed,
/// or memory ran out.
fn take_text<S: Source>(alloc: Global, source: &mut S) -> Result<Bytes, Status>
    ensures all { IfOk result (λ text. ReadsAll (S.left source.old) (S.left source.new) text) }
    ensures within { IfOk result (λ text. length text ≤ scenario_limit) }
    ensures no_fault { OnOk result (S.faults source.new ≡ S.faults source.old) }
    ensures unread { IfErr result (λ status. IsUnread status (S.left source.old) (S.left source.new)
        (S.faults source.old) (S.faults source.new)) }
{
    match read_all(alloc, source, SCENARIO_LIMIT) {
        Ok(text) => Ok(text),
        Err(ReadEnd::Failed) => Err(Status::ReadFailed),
        Err(ReadEnd::TooLong) => Err(Status::Refused),
        Err(ReadEnd::NoMemory) => Err(Status::OutOfMemory),
    }
}

/// Reads a scenario; else answers with what status the program ends: the input is none, a read failed, or memory ran
/// out.
fn read<S: Source>(alloc: Global, source: &mut S) -> Result<Scenario, Status>
    ensures limits { IfOk result (λ scenario. IsWithinLimits scenario) }
    ensures read { IfOk result (λ scenario. WasRead scenario (S.left source.old) (S.left source.new)) }
    ensures no_fault { OnOk result (S.faults source.new ≡ S.faults source.old) }
    ensures unread { IfErr result (λ status. IsUnread status (S.left source.old) (S.left source.new)
        (S.faults source.old) (S.faults source.new)) }
{
    let text = take_text(alloc, source)?;
    match read_scenario(alloc, text.as_slice()) {
        Ok(scenario) => Ok(scenario),
        Err(ScenRefusal::Fault(_)) => Err(Status::Refused),
        Err(ScenRefusal::NoMemory) => Err(Status::OutOfMemory),
    }
}

/// Reads a scenario and writes its history, and answers with what status the program ends. Where the input is no
/// scenario, a read failed, or memory ran out in the reading, nothing is written. Where a write failed, a prefix of the
/// text of a history was written that lacks some bytes; where memory ran out behind the reading, nothing or a prefix.
pub fn serve<S: Source, K: Sink>(alloc: Global, source: &mut S, sink: &mut K) -> Status
    ensures { EndsAs result (ends_of S.left S.faults K.written K.faults source.old sink.old)
        (ends_of S.left S.faults K.written K.faults source.new sink.new) }
{
    match read(alloc, source) {
        Ok(scenario) => tell(alloc, scenario, sink),
        Err(status) => status,
    }
}
