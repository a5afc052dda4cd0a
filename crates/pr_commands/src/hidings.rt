//! What the controllers of a scenario hide of what they do, and what is left of a history without it.
ghost use Rattle.std.specs.Prelude.{◌≡◌, ◌<◌, ◌^◌, length, map, IfOk};
ghost use Rattle.pr_hidden.specs.HiddenSteps.{hidden_steps};
ghost use Rattle.pr_model.specs.Legal.{IsLegal};
ghost use Rattle.pr_run_laws.specs.ScenarioRuns.{first_state_of};
ghost use Rattle.pr_scen.specs.Scenarios.{IsWithinLimits};
ghost use Rattle.pr_commands.specs.Hidings.{hider_of, hiders_in, patch_of};

use pr_actors::kern_of;
use pr_hide::{Hider, Patch};
use pr_line::Function;
use pr_model::{History, Steps};
use pr_num::{Bytes, NoMemory, Table};
use pr_scen::{Plan, Scenario};
use std::alloc::Global;

/// What programs have where the breakpoint of a function is planted.
fn patch_of(alloc: Global, function: &Function) -> Result<Patch, NoMemory>
    ensures { IfOk result (λ patch. patch ≡ patch_of function.now) }
{
    Ok(Patch {
        at: function.at,
        bytes: Bytes::from_vec(Vec::from_slice(alloc, &function.code)?),
    })
}

/// The same of each of these functions.
fn patches_of(alloc: Global, functions: &[Function]) -> Result<Table<Patch>, NoMemory>
    ensures { IfOk result (λ patches. patches ≡ map patch_of functions.now) }
{
    let mut patches = Vec::new(alloc);
    for function in functions {
        patches.push(patch_of(alloc, function)?)?;
    }
    Ok(Table::from_vec(patches))
}

/// What the controller of a plan hides.
#[tactic(auto, unfolding(crate::specs::Hidings::hider_of))]
fn hider_of(alloc: Global, plan: &Plan) -> Result<Hider, NoMemory>
    ensures { IfOk result (λ hider. hider ≡ hider_of plan.now) }
{
    Ok(match plan {
        Plan::Truss(options) => {
            Hider::Functions(patches_of(alloc, options.functions.as_slice())?)
        }
        Plan::Probe(_) => Hider::Probe,
        Plan::Script(_) | Plan::Tool(_, _) | Plan::Gcore(_) => Hider::Nothing,
    })
}

/// What each of these controllers hides.
pub fn hiders_of(alloc: Global, plans: &[Plan]) -> Result<Vec<Hider>, NoMemory>
    ensures { IfOk result (λ who. who.items ≡ map hider_of plans.now) }
{
    let mut who = Vec::new(alloc);
    for plan in plans {
        who.push(hider_of(alloc, plan)?)?;
    }
    Ok(who)
}

/// The untraced steps of a history of a scenario without what its controllers hide: of each truss the breakpoints at
/// the functions whose calls it shows, and the faults of stepping over these; and of apfiles its agent. The history is
/// a legal one of that scenario, whether a run made it or not. It is played on a new kernel, of which memory may run
/// out.
pub fn strip_hidden(alloc: Global, scenario: Scenario, history: &History) -> Result<Steps, NoMemory>
    requires limits { IsWithinLimits scenario }
    requires few { length history.now.entries < 2 ^ 32 }
    requires legal { IsLegal (length scenario.controllers) (first_state_of scenario) history.now.entries }
    ensures { IfOk result (λ steps.
        steps ≡ hidden_steps (hiders_in scenario) (first_state_of scenario) history.now.entries) }
{
    let who = hiders_of(alloc, scenario.controllers.as_slice())?;
    let controllers = scenario.controllers.len() as u32;
    let kern = kern_of(alloc, scenario, history.len() as u32)?;
    pr_hide::strip_hidden(alloc, who.as_slice(), kern, controllers, history)
}
