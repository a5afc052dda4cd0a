//! The controllers of plans, before their first calls.
ghost use Rattle.std.specs.Prelude.{◌≡◌, map, IfOk};
ghost use Rattle.pr_run_laws.specs.ScenarioRuns.{controller_of, truss_of};
ghost use Rattle.pr_truss.specs.Marks.{has_functions};
ghost use Rattle.pr_world.specs.ControllerStates.{state_of};

use pr_bpt::FnTruss;
use pr_core::Gcore;
use pr_line::Options;
use pr_num::NoMemory;
use pr_probe::Probe;
use pr_scen::Plan;
use pr_tools::Tool;
use pr_truss::Truss;
use pr_world::Controller;
use std::alloc::Global;

/// A truss before its first call, which shows calls of functions where there are some.
#[tactic(auto, unfolding(pr_world::specs::ControllerStates::state_of))]
fn truss_of(alloc: Global, options: Options) -> Result<Controller, NoMemory>
    ensures { IfOk result (λ controller. state_of controller ≡ truss_of options (has_functions options)) }
{
    if options.functions.is_empty() {
        return Ok(Controller::Truss(Truss::new(alloc, options)?));
    }
    Ok(Controller::FnTruss(FnTruss::new(alloc, options)?))
}

/// The controller of a plan before its first call.
#[tactic(auto, unfolding(pr_run_laws::specs::ScenarioRuns::controller_of, pr_world::specs::ControllerStates::state_of))]
fn controller_of(alloc: Global, plan: Plan) -> Result<Controller, NoMemory>
    ensures { IfOk result (λ controller. state_of controller ≡ controller_of plan) }
{
    Ok(match plan {
        Plan::Script(script) => Controller::Script(script),
        Plan::Truss(options) => truss_of(alloc, options)?,
        Plan::Tool(kind, pid) => Controller::Tool(Tool::new(alloc, kind, pid)?),
        Plan::Gcore(pid) => Controller::Gcore(Gcore::new(alloc, pid)?),
        Plan::Probe(pid) => Controller::Probe(Probe::new(alloc, pid)?),
    })
}

/// The controllers of plans before their first calls, in order.
pub fn controllers_of(alloc: Global, plans: Vec<Plan>) -> Result<Vec<Controller>, NoMemory>
    ensures { IfOk result (λ controllers. map state_of controllers.items ≡ map controller_of plans.items) }
{
    let mut controllers = Vec::with_capacity(alloc, plans.len())?;
    for plan in plans {
        controllers.push(controller_of(alloc, plan)?)?;
    }
    Ok(controllers)
}
