//! The kernel and the controllers of a scenario, before the first move.
ghost use Rattle.std.specs.Prelude.{◌≡◌, [], map, IfOk};
ghost use Rattle.pr_model.specs.Lawful.{IsLawful};
ghost use Rattle.pr_run_laws.specs.ScenarioRuns.{controllers_of, first_state_of};
ghost use Rattle.pr_scen.specs.Scenarios.{IsWithinLimits};
ghost use Rattle.pr_world.specs.ControllerStates.{state_of};

use crate::controllers::controllers_of;
use pr_kern::Kern;
use pr_model::Actor;
use pr_num::NoMemory;
use pr_scen::Scenario;
use pr_world::Controller;
use std::alloc::Global;

/// The kernel of a scenario in its first state, with places for so many entries. Its controllers are let go.
#[tactic(auto, using(crate::proofs::ScenarioLemmas::scenarios))]
pub fn kern_of(alloc: Global, scenario: Scenario, places: u32) -> Result<Kern, NoMemory>
    requires { IsWithinLimits scenario }
    ensures state { IfOk result (λ kern. kern.state ≡ first_state_of scenario) }
    ensures history { IfOk result (λ kern. kern.history ≡ []) }
    ensures places { IfOk result (λ kern. kern.places ≡ places) }
    ensures lawful { IfOk result (λ kern. IsLawful kern.state) }
{
    let Scenario {
        turns: _,
        programs,
        files,
        spawns,
        controllers: _,
        schedule: _,
    } = scenario;
    Kern::new(alloc, programs, files, spawns.as_slice(), places)
}

/// The kernel and the controllers of a scenario, and who of them is to move first.
#[derive(Drop)]
pub struct Actors {
    pub kern: Kern,
    pub controllers: Vec<Controller>,
    pub schedule: Vec<Actor>,
}

/// The kernel of a scenario in its first state, with a place for each of its turns, and its controllers before their
/// first calls.
#[tactic(auto, using(crate::proofs::ScenarioLemmas::scenarios))]
pub fn actors_of(alloc: Global, scenario: Scenario) -> Result<Actors, NoMemory>
    requires { IsWithinLimits scenario }
    ensures state { IfOk result (λ actors. actors.kern.state ≡ first_state_of scenario) }
    ensures history { IfOk result (λ actors. actors.kern.history ≡ []) }
    ensures places { IfOk result (λ actors. actors.kern.places ≡ scenario.turns) }
    ensures controllers { IfOk result (λ actors.
        map state_of actors.controllers.items ≡ controllers_of scenario) }
    ensures schedule { IfOk result (λ actors. actors.schedule.items ≡ scenario.schedule) }
{
    let Scenario {
        turns,
        programs,
        files,
        spawns,
        controllers,
        schedule,
    } = scenario;
    let controllers = controllers_of(alloc, controllers)?;
    let kern = Kern::new(alloc, programs, files, spawns.as_slice(), turns)?;
    Ok(Actors {
        kern,
        controllers,
        schedule,
    })
}
