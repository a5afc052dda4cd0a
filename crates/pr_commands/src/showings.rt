//! What the commands `run` and `plain` show of a run.
ghost use Rattle.std.specs.Prelude.{List};
ghost use Rattle.std.specs.List.{flat_map};
ghost use Rattle.pr_hidden.specs.HiddenSteps.{hidden_steps, hidden_trace};
ghost use Rattle.pr_model.specs.UntracedMachine.{traced_step};
ghost use Rattle.pr_model.specs.UntracedSteps.{untraced_steps, untraced_trace};
ghost use Rattle.pr_model.specs.declared.events.Entry.{Entry};
ghost use Rattle.pr_output.specs.Output.{plain_run_text, run_text};
ghost use Rattle.pr_output.specs.Puts.{Puts};
ghost use Rattle.pr_run_laws.specs.ScenarioRuns.{first_state_of};
ghost use Rattle.pr_commands.specs.Answers.{RunText, plain_shown, untraced_shown};
ghost use Rattle.pr_commands.specs.Hidings.{IsOf, hiders_in};

use crate::hidings::strip_hidden;
use pr_io::Sink;
use pr_model::{History, Steps};
use pr_output::{Cut, Report, Showing, write_plain, write_run};
use pr_scen::Scenario;
use pr_strip::{strip, trace, trace_of_steps};
use std::alloc::Global;

/// What a command writes of a run that was made.
pub trait Shows: Drop {
    /// The text, as a function of the history of the run, its reports and the number of its status.
    ghost text: { Self → RunText };

    /// The histories of which it can be written.
    ghost fits: { Self → List Entry → Type 0 } = { λ _ _. Unit {0} };

    /// Writes it.
    fn write<K: Sink>(
        self,
        alloc: Global,
        history: &History,
        reports: &[Report],
        status: u8,
        sink: &mut K,
    ) -> Result<(), Cut>
        requires { fits self history.now.entries }
        ensures { Puts result (K.written sink.old) (K.written sink.new) (K.faults sink.old) (K.faults sink.new)
            (text self history.now.entries reports.now status) };
}

/// The history, or not, the reports and the status.
impl Shows for Showing {
    ghost text = { run_text };

    fn write<K: Sink>(
        self,
        alloc: Global,
        history: &History,
        reports: &[Report],
        status: u8,
        sink: &mut K,
    ) -> Result<(), Cut> {
        write_run(alloc, sink, self, history, reports, status)
    }
}

/// The run as the machine without controllers makes it.
#[derive(Clone, Copy)]
pub struct Stripped;

#[tactic(auto, unfolding(crate::specs::Answers::untraced_shown))]
impl Shows for Stripped {
    ghost text = { λ _. untraced_shown };

    fn write<K: Sink>(
        self,
        alloc: Global,
        history: &History,
        _reports: &[Report],
        status: u8,
        sink: &mut K,
    ) -> Result<(), Cut> {
        write_stripped(alloc, history, status, sink)
    }
}

/// What programs see of a run of this scenario.
#[derive(Drop)]
pub struct Seen {
    pub scenario: Scenario,
}

#[tactic(auto, unfolding(crate::specs::Answers::seen_shown))]
impl Shows for Seen {
    ghost text = { λ seen. plain_shown seen.scenario };

    ghost fits = { λ seen. IsOf seen.scenario };

    fn write<K: Sink>(
        self,
        alloc: Global,
        history: &History,
        _reports: &[Report],
        status: u8,
        sink: &mut K,
    ) -> Result<(), Cut> {
        write_seen(alloc, self.scenario, history, status, sink)
    }
}

/// Writes the untraced steps of a history, its trace, and a status.
fn write_stripped<K: Sink>(
    alloc: Global,
    history: &History,
    status: u8,
    sink: &mut K,
) -> Result<(), Cut>
    ensures { Puts result (K.written sink.old) (K.written sink.new) (K.faults sink.old) (K.faults sink.new)
        (plain_run_text (untraced_steps history.now.entries) (untraced_trace history.now.entries) status) }
{
    let steps = strip(alloc, history)?;
    let trace = trace(alloc, history)?;
    write_plain(alloc, sink, steps.as_slice(), trace.as_slice(), status)
}

/// Writes steps, their trace, and a status.
fn write_steps<K: Sink>(alloc: Global, steps: &Steps, status: u8, sink: &mut K) -> Result<(), Cut>
    ensures { Puts result (K.written sink.old) (K.written sink.new) (K.faults sink.old) (K.faults sink.new)
        (plain_run_text steps.now (flat_map traced_step steps.now) status) }
{
    let trace = trace_of_steps(alloc, steps)?;
    write_plain(alloc, sink, steps.as_slice(), trace.as_slice(), status)
}

/// Writes the steps of a history of a scenario and its trace, each without what is hidden, and a status.
fn write_seen<K: Sink>(
    alloc: Global,
    scenario: Scenario,
    history: &History,
    status: u8,
    sink: &mut K,
) -> Result<(), Cut>
    requires { IsOf scenario history.now.entries }
    ensures { Puts result (K.written sink.old) (K.written sink.new) (K.faults sink.old) (K.faults sink.new)
        (plain_run_text (hidden_steps (hiders_in scenario) (first_state_of scenario) history.now.entries)
        (hidden_trace (hiders_in scenario) (first_state_of scenario) history.now.entries) status) }
{
    let steps = strip_hidden(alloc, scenario, history)?;
    write_steps(alloc, &steps, status, sink)
}
