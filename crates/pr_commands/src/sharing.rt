//! What the command `run` on several threads answers to an input.
ghost use Rattle.std.specs.Prelude.{◌≡◌, ◌≤◌, length, Some, IfOk, IfSome, OnErr, OnOk};
ghost use Rattle.pr_num.specs.Limits.{scenario_limit, worker_limit};
ghost use Rattle.pr_output.specs.Output.{run_text};
ghost use Rattle.pr_scen.specs.Scenarios.{IsWithinLimits};
ghost use Rattle.pr_world.specs.Worlds.{ended_as, seen};
ghost use Rattle.pr_commands.specs.Answers.{MayAnswer, ShowsEnd, ran};
ghost use Rattle.pr_commands.specs.Giving.{Responds, RespondsOne, StopsEarly};
ghost use Rattle.pr_commands.specs.Histories.{RanOutEarly, by_threads};
ghost use Rattle.pr_commands.specs.Made.{LeftWith, StoppedThreads, kern_view};

use crate::inputs::scenario_of_input;
use crate::outcomes::{Ending, Status, out_of_memory, without_history};
use crate::reports::reports_of;
use crate::responses::{refuse_at, show_ran};
use crate::runs::{Ran, first_world};
use pr_io::{Gate, Sink};
use pr_kern::Kern;
use pr_lock::NewNo;
use pr_model::History;
use pr_num::{Bytes, NoMemory};
use pr_output::Showing;
use pr_run::run_many;
use pr_scen::{ScenRefusal, Scenario};
use pr_world::{End, World};
use std::alloc::Global;
use std::sync::Wait;
use std::thread::Threads;

/// Has the controllers of a world print that ended so, and shows the run.
fn show_world<K: Sink>(
    alloc: Global,
    showing: Showing,
    world: World<Kern>,
    end: End,
    sink: &mut K,
) -> Ending
    requires { ended_as (seen kern_view world) ≡ Some end }
    ensures { Responds (ran (run_text showing) (seen kern_view world))
        (LeftWith world.kernel.history result.history.entries (K.written sink.old) (K.written sink.new))
        result.status result.history.entries
        (K.written sink.old) (K.written sink.new) (K.faults sink.old) (K.faults sink.new) }
{
    let reports = reports_of(alloc, &world);
    let history = world.into_kernel().into_history();
    match reports {
        Ok(reports) => show_ran(alloc, showing, Ran { end, reports }, history, sink),
        Err(error) => out_of_memory(error, history),
    }
}

/// Shows the run that led to a world, or leaves its history where memory ran out in it.
fn show_end<K: Sink>(
    alloc: Global,
    showing: Showing,
    world: World<Kern>,
    end: Result<End, NoMemory>,
    sink: &mut K,
) -> Ending
    requires { IfOk end (λ end. ended_as (seen kern_view world) ≡ Some end) }
    ensures ended { OnOk end (Responds (ran (run_text showing) (seen kern_view world))
        (LeftWith world.kernel.history result.history.entries (K.written sink.old) (K.written sink.new))
        result.status result.history.entries
        (K.written sink.old) (K.written sink.new) (K.faults sink.old) (K.faults sink.new)) }
    ensures stopped { OnErr end (StopsEarly
        (LeftWith world.kernel.history result.history.entries (K.written sink.old) (K.written sink.new))
        result.status (K.faults sink.old) (K.faults sink.new)) }
{
    match end {
        Ok(end) => show_world(alloc, showing, world, end, sink),
        Err(error) => out_of_memory(error, world.into_kernel().into_history()),
    }
}

/// Answers a scenario: its run is made on threads, of which so many share the processor, and written.
fn share_scenario<R: Threads + Wait + Sync, K: Sink, G: Gate + Sync>(
    rt: &R,
    alloc: Global,
    showing: Showing,
    workers: u32,
    scenario: Scenario,
    sink: &mut K,
    gate: &G,
) -> Ending
    requires limits { IsWithinLimits scenario }
    requires some { 1 ≤ workers }
    requires most { workers ≤ worker_limit }
    ensures { RespondsOne (ShowsEnd showing scenario)
        (StoppedThreads scenario result.history.entries (K.written sink.old) (K.written sink.new))
        result.status result.history.entries
        (K.written sink.old) (K.written sink.new) (K.faults sink.old) (K.faults sink.new) }
{
    let world = match first_world(alloc, scenario) {
        Ok(world) => world,
        Err(error) => return out_of_memory(error, History::new(alloc)),
    };
    match run_many(rt, alloc, world, workers, gate) {
        Ok((world, end)) => show_end(alloc, showing, world, end, sink),
        Err(NewNo::NoMemory) => without_history(alloc, Status::OutOfMemory),
        Err(NewNo::Taken { .. }) => unreachable!(),
    }
}

/// Answers an input: it is refused, or the run of its scenario is made on threads, and shown so.
pub fn share<R: Threads + Wait + Sync, K: Sink, G: Gate + Sync>(
    rt: &R,
    alloc: Global,
    showing: Showing,
    workers: u32,
    input: Option<Bytes>,
    sink: &mut K,
    gate: &G,
) -> Ending
    requires few { IfSome input (λ bytes. length bytes ≤ scenario_limit) }
    requires some { 1 ≤ workers }
    requires most { workers ≤ worker_limit }
    ensures { RespondsOne (MayAnswer showing input)
        (RanOutEarly by_threads input result.history.entries (K.written sink.old) (K.written sink.new))
        result.status result.history.entries
        (K.written sink.old) (K.written sink.new) (K.faults sink.old) (K.faults sink.new) }
{
    match scenario_of_input(alloc, input) {
        Ok(scenario) => share_scenario(rt, alloc, showing, workers, scenario, sink, gate),
        Err(ScenRefusal::Fault(fault)) => refuse_at(alloc, fault, sink),
        Err(ScenRefusal::NoMemory) => without_history(alloc, Status::OutOfMemory),
    }
}
