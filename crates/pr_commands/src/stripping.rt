//! What the command `plain` answers to an input.
ghost use Rattle.std.specs.Prelude.{◌≡◌, ◌≤◌, length, map, Ok, IfOk, IfSome, IsOk};
ghost use Rattle.pr_num.specs.Limits.{scenario_limit};
ghost use Rattle.pr_run_laws.specs.ScenarioRuns.{run_of};
ghost use Rattle.pr_scen.specs.Scenarios.{IsWithinLimits};
ghost use Rattle.pr_commands.specs.Answers.{answer_to, plain_shown, ran};
ghost use Rattle.pr_commands.specs.Giving.{Responds};
ghost use Rattle.pr_commands.specs.Hidings.{hider_of};
ghost use Rattle.pr_commands.specs.Histories.{RanOutEarly, in_rounds};
ghost use Rattle.pr_commands.specs.Inputs.{scenario_of_input};
ghost use Rattle.pr_commands.specs.Made.{StoppedRun};

use crate::hidings::hiders_of;
use crate::inputs::{scenario_in, scenario_of_input};
use crate::outcomes::{Ending, Status, out_of_memory, without_history};
use crate::responses::{refuse_at, run_scenario};
use crate::showings::{Seen, Stripped};
use pr_hide::{Hider, hide_nothing};
use pr_io::Sink;
use pr_model::History;
use pr_num::{Bytes, NoMemory};
use pr_scen::{ScenRefusal, Scenario};
use std::alloc::Global;

/// The scenario of an input that is read a second time.
fn scenario_again(alloc: Global, input: Option<Bytes>) -> Result<Scenario, NoMemory>
    requires few { IfSome input (λ bytes. length bytes ≤ scenario_limit) }
    requires read { IsOk (scenario_of_input input) }
    ensures { IfOk result (λ s. scenario_of_input input ≡ Ok s) }
{
    match scenario_of_input(alloc, input) {
        Ok(scenario) => Ok(scenario),
        Err(ScenRefusal::Fault(_)) => unreachable!(),
        Err(ScenRefusal::NoMemory) => Err(NoMemory),
    }
}

/// Answers a scenario of which controllers hide something: its run is made, and what programs see of it is written.
fn strip_hiding<K: Sink>(
    alloc: Global,
    input: Option<Bytes>,
    scenario: Scenario,
    sink: &mut K,
) -> Ending
    requires few { IfSome input (λ bytes. length bytes ≤ scenario_limit) }
    requires read { scenario_of_input input ≡ Ok scenario }
    requires limits { IsWithinLimits scenario }
    ensures { Responds (ran (plain_shown scenario) (run_of scenario))
        (StoppedRun scenario result.history.entries (K.written sink.old) (K.written sink.new))
        result.status result.history.entries
        (K.written sink.old) (K.written sink.new) (K.faults sink.old) (K.faults sink.new) }
{
    match scenario_again(alloc, input) {
        Ok(again) => run_scenario(alloc, Seen { scenario: again }, scenario, sink),
        Err(error) => out_of_memory(error, History::new(alloc)),
    }
}

/// Answers a scenario of which the controllers hide this, or nothing: its run is made, and what programs see of it is
/// written.
fn strip_run<K: Sink>(
    alloc: Global,
    who: Vec<Hider>,
    input: Option<Bytes>,
    scenario: Scenario,
    sink: &mut K,
) -> Ending
    requires few { IfSome input (λ bytes. length bytes ≤ scenario_limit) }
    requires read { scenario_of_input input ≡ Ok scenario }
    requires limits { IsWithinLimits scenario }
    requires hiders { who.items ≡ map hider_of scenario.controllers }
    ensures { Responds (ran (plain_shown scenario) (run_of scenario))
        (StoppedRun scenario result.history.entries (K.written sink.old) (K.written sink.new))
        result.status result.history.entries
        (K.written sink.old) (K.written sink.new) (K.faults sink.old) (K.faults sink.new) }
{
    if hide_nothing(who.as_slice()) {
        run_scenario(alloc, Stripped, scenario, sink)
    } else {
        strip_hiding(alloc, input, scenario, sink)
    }
}

/// Answers the scenario of an input: its run is made, and what programs see of it is written.
fn strip_scenario<K: Sink>(
    alloc: Global,
    input: Option<Bytes>,
    scenario: Scenario,
    sink: &mut K,
) -> Ending
    requires few { IfSome input (λ bytes. length bytes ≤ scenario_limit) }
    requires read { scenario_of_input input ≡ Ok scenario }
    requires limits { IsWithinLimits scenario }
    ensures { Responds (ran (plain_shown scenario) (run_of scenario))
        (StoppedRun scenario result.history.entries (K.written sink.old) (K.written sink.new))
        result.status result.history.entries
        (K.written sink.old) (K.written sink.new) (K.faults sink.old) (K.faults sink.new) }
{
    match hiders_of(alloc, scenario.controllers.as_slice()) {
        Ok(who) => strip_run(alloc, who, input, scenario, sink),
        Err(error) => out_of_memory(error, History::new(alloc)),
    }
}

/// Answers an input: it is refused, or the run of its scenario is made, and what programs see of it is written.
pub fn strip_input<K: Sink>(alloc: Global, input: Option<Bytes>, sink: &mut K) -> Ending
    requires { IfSome input (λ bytes. length bytes ≤ scenario_limit) }
    ensures { Responds (answer_to plain_shown input)
        (RanOutEarly in_rounds input result.history.entries (K.written sink.old) (K.written sink.new))
        result.status result.history.entries
        (K.written sink.old) (K.written sink.new) (K.faults sink.old) (K.faults sink.new) }
{
    match scenario_in(alloc, &input) {
        Ok(scenario) => strip_scenario(alloc, input, scenario, sink),
        Err(ScenRefusal::Fault(fault)) => refuse_at(alloc, fault, sink),
        Err(ScenRefusal::NoMemory) => without_history(alloc, Status::OutOfMemory),
    }
}
