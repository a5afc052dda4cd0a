//! What the command `run` answers to an input, and how a run is shown.
ghost use Rattle.std.specs.Prelude.{◌≡◌, ◌≤◌, length, IfOk, IfSome, OnErr, OnOk};
ghost use Rattle.pr_input.specs.Kinds.{kind_name};
ghost use Rattle.pr_num.specs.Limits.{scenario_limit};
ghost use Rattle.pr_run_laws.specs.ScenarioRuns.{run_of};
ghost use Rattle.pr_scen.specs.Scenarios.{IsWithinLimits};
ghost use Rattle.pr_commands.specs.Answers.{answer_to, ran, ran_so, refused_at, run_text_of};
ghost use Rattle.pr_commands.specs.Giving.{Responds, StopsEarly};
ghost use Rattle.pr_commands.specs.Histories.{RanOutEarly, in_rounds};
ghost use Rattle.pr_commands.specs.Made.{LeftWith, StoppedRun};

use crate::answers::status_after;
use crate::inputs::scenario_of_input;
use crate::outcomes::{Ending, Status, end_status, number, out_of_memory, without_history};
use crate::runs::{Made, Ran, make_run};
use crate::showings::Shows;
use pr_input::kind_name;
use pr_io::Sink;
use pr_model::History;
use pr_num::Bytes;
use pr_output::{Showing, write_refusal};
use pr_scen::{ScenFault, ScenRefusal, Scenario};
use std::alloc::Global;

/// Answers an input that is refused, at a line for a reason.
pub fn refuse_input<K: Sink>(alloc: Global, line: u32, kind: &[u8], sink: &mut K) -> Ending
    ensures { Responds (refused_at line kind.now) ⊥ result.status result.history.entries
        (K.written sink.old) (K.written sink.new) (K.faults sink.old) (K.faults sink.new) }
{
    let written = write_refusal(alloc, sink, line, kind);
    without_history(alloc, status_after(written, Status::Refused))
}

/// Shows a run that ended so.
pub fn show_ran<W: Shows, K: Sink>(
    alloc: Global,
    showing: W,
    ran: Ran,
    history: History,
    sink: &mut K,
) -> Ending
    requires { W.fits showing history.entries }
    ensures { Responds
        (ran_so (W.text showing) ran.end history.entries ran.reports.items) ⊥ result.status result.history.entries
        (K.written sink.old) (K.written sink.new) (K.faults sink.old) (K.faults sink.new) }
{
    let status = end_status(ran.end);
    let reports = ran.reports.as_slice();
    let written = showing.write(alloc, &history, reports, number(status), sink);
    Ending {
        status: status_after(written, status),
        history,
    }
}

/// Shows a run that was made, or leaves its history where memory ran out in it.
fn show_made<W: Shows, K: Sink>(alloc: Global, showing: W, made: Made, sink: &mut K) -> Ending
    requires { OnOk made.ran (W.fits showing made.history.entries) }
    ensures shown { IfOk made.ran (λ run. Responds (ran_so (W.text showing) run.end made.history.entries run.reports.items) ⊥
        result.status result.history.entries
        (K.written sink.old) (K.written sink.new) (K.faults sink.old) (K.faults sink.new)) }
    ensures stopped { OnErr made.ran (StopsEarly
        (LeftWith made.history.entries result.history.entries (K.written sink.old) (K.written sink.new))
        result.status (K.faults sink.old) (K.faults sink.new)) }
{
    let Made { ran, history } = made;
    match ran {
        Ok(ran) => show_ran(alloc, showing, ran, history, sink),
        Err(error) => out_of_memory(error, history),
    }
}

/// Answers a scenario: its run is made, and shown so.
pub fn run_scenario<W: Shows, K: Sink>(
    alloc: Global,
    showing: W,
    scenario: Scenario,
    sink: &mut K,
) -> Ending
    requires limits { IsWithinLimits scenario }
    requires fits { W.fits showing (run_of scenario).kernel.history }
    ensures { Responds (ran (W.text showing) (run_of scenario))
        (StoppedRun scenario result.history.entries (K.written sink.old) (K.written sink.new))
        result.status result.history.entries
        (K.written sink.old) (K.written sink.new) (K.faults sink.old) (K.faults sink.new) }
{
    let made = make_run(alloc, scenario);
    show_made(alloc, showing, made, sink)
}

/// Answers an input of which a line is refused, or that is refused as a whole.
pub fn refuse_at<K: Sink>(alloc: Global, fault: ScenFault, sink: &mut K) -> Ending
    ensures { Responds (refused_at fault.line (kind_name fault.kind)) ⊥ result.status result.history.entries
        (K.written sink.old) (K.written sink.new) (K.faults sink.old) (K.faults sink.new) }
{
    refuse_input(alloc, fault.line, kind_name(fault.kind), sink)
}

/// Answers an input: it is refused, or the run of its scenario is made, and shown so.
pub fn respond<K: Sink>(
    alloc: Global,
    showing: Showing,
    input: Option<Bytes>,
    sink: &mut K,
) -> Ending
    requires { IfSome input (λ bytes. length bytes ≤ scenario_limit) }
    ensures { Responds (answer_to (run_text_of showing) input)
        (RanOutEarly in_rounds input result.history.entries (K.written sink.old) (K.written sink.new))
        result.status result.history.entries
        (K.written sink.old) (K.written sink.new) (K.faults sink.old) (K.faults sink.new) }
{
    match scenario_of_input(alloc, input) {
        Ok(scenario) => run_scenario(alloc, showing, scenario, sink),
        Err(ScenRefusal::Fault(fault)) => refuse_at(alloc, fault, sink),
        Err(ScenRefusal::NoMemory) => without_history(alloc, Status::OutOfMemory),
    }
}
