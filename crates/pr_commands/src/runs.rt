//! The run of a scenario, on one thread.
ghost use Rattle.std.specs.Prelude.{◌≡◌, IfOk, OnOk, OnErr};
ghost use Rattle.pr_run_laws.specs.ScenarioRuns.{first_world, run_of};
ghost use Rattle.pr_scen.specs.Scenarios.{IsWithinLimits};
ghost use Rattle.pr_world.specs.Runs.{IsFresh, TellsMachine, after_moves};
ghost use Rattle.pr_world.specs.Worlds.{end_of, seen};
ghost use Rattle.pr_commands.specs.Made.{IsBroughtSoFar, IsWorldsWay, kern_view};
ghost use Rattle.pr_commands.specs.Reports.{reports_of};

use crate::reports::reports_of;
use pr_actors::actors_of;
use pr_kern::Kern;
use pr_model::History;
use pr_num::NoMemory;
use pr_output::Report;
use pr_run::run_one;
use pr_scen::Scenario;
use pr_world::{End, World};
use std::alloc::Global;

/// The world of a scenario before its first move.
#[tactic(auto, unfolding(pr_run_laws::specs::ScenarioRuns::first_world), using(pr_actors::proofs::ScenarioLemmas::scenarios))]
pub fn first_world(alloc: Global, scenario: Scenario) -> Result<World<Kern>, NoMemory>
    requires limits { IsWithinLimits scenario }
    ensures { IfOk result (λ world. seen kern_view world ≡ first_world scenario) }
{
    let actors = actors_of(alloc, scenario)?;
    World::new(alloc, actors.kern, actors.controllers, actors.schedule)
}

/// How a run ended, and what its controllers print then.
#[derive(Drop)]
pub struct Ran {
    pub end: End,
    pub reports: Vec<Report>,
}

/// A run that was made, or the history as far as it was when memory ran out.
#[derive(Drop)]
pub struct Made {
    pub ran: Result<Ran, NoMemory>,
    pub history: History,
}

/// Makes the run of a scenario.
pub fn make_run(alloc: Global, scenario: Scenario) -> Made
    requires limits { IsWithinLimits scenario }
    ensures ended { IfOk result.ran (λ ran. ran.end ≡ end_of (run_of scenario)) }
    ensures reports { IfOk result.ran (λ ran. ran.reports.items ≡ reports_of (run_of scenario)) }
    ensures history { OnOk result.ran (result.history.entries ≡ (run_of scenario).kernel.history) }
    ensures stopped { OnErr result.ran (IsBroughtSoFar scenario result.history.entries) }
{
    match first_world(alloc, scenario) {
        Ok(world) => run_world(alloc, world),
        Err(error) => Made {
            ran: Err(error),
            history: History::new(alloc),
        },
    }
}

/// Makes all moves of a world in which no actor has moved, and has its controllers print.
fn finish(alloc: Global, world: &mut World<Kern>) -> Result<Ran, NoMemory>
    requires told { TellsMachine (seen kern_view world.old) }
    requires fresh { IsFresh (seen kern_view world.old) }
    ensures ended { IfOk result (λ ran. ran.end ≡ end_of (after_moves world.old.kernel.places (seen kern_view world.old))) }
    ensures reports { IfOk result
        (λ ran. ran.reports.items ≡ reports_of (after_moves world.old.kernel.places (seen kern_view world.old))) }
    ensures history { OnOk result
        (world.new.kernel.history ≡ (after_moves world.old.kernel.places (seen kern_view world.old)).kernel.history) }
    ensures stopped { OnErr result (IsWorldsWay (seen kern_view world.old) world.new.kernel.history) }
{
    let ended = run_one(world);
    prove!(world.kernel().entries() <= world.kernel().places());
    let end = ended?;
    let reports = reports_of(alloc, world)?;
    Ok(Ran { end, reports })
}

/// Makes the run of a world in which no actor has moved.
fn run_world(alloc: Global, mut world: World<Kern>) -> Made
    requires told { TellsMachine (seen kern_view world) }
    requires fresh { IsFresh (seen kern_view world) }
    ensures ended { IfOk result.ran (λ ran. ran.end ≡ end_of (after_moves world.kernel.places (seen kern_view world))) }
    ensures reports { IfOk result.ran
        (λ ran. ran.reports.items ≡ reports_of (after_moves world.kernel.places (seen kern_view world))) }
    ensures history { OnOk result.ran
        (result.history.entries ≡ (after_moves world.kernel.places (seen kern_view world)).kernel.history) }
    ensures stopped { OnErr result.ran (IsWorldsWay (seen kern_view world) result.history.entries) }
{
    let ran = finish(alloc, &mut world);
    made_of(world, ran)
}

/// What is left of a run that brought its world so far, and that ended so.
fn made_of(world: World<Kern>, ran: Result<Ran, NoMemory>) -> Made
    ensures ran { result.ran ≡ ran }
    ensures history { result.history.entries ≡ world.kernel.history }
{
    Made {
        ran,
        history: world.into_kernel().into_history(),
    }
}
