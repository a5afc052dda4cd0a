//! The scenario of an input.
ghost use Rattle.std.specs.Prelude.{◌≤◌, length, IfOk, IfSome};
ghost use Rattle.pr_num.specs.Limits.{scenario_limit};
ghost use Rattle.pr_text.specs.Reads.{Answers};
ghost use Rattle.pr_scen.specs.Scenarios.{IsWithinLimits};
ghost use Rattle.pr_commands.specs.Inputs.{scenario_of_input};

use pr_num::Bytes;
use pr_scen::{ScenFault, ScenKind, ScenRefusal, Scenario, read_scenario};
use std::alloc::Global;

/// What is said of an input that had more bytes than it may have: line 0 stands for the whole input.
pub const TOO_LONG: ScenFault = ScenFault {
    line: 0,
    kind: ScenKind::TooLong,
};

/// The scenario of an input; none: it had more bytes than it may have.
#[tactic(auto, unfolding(crate::specs::Inputs::scenario_of_input))]
pub fn scenario_in(alloc: Global, input: &Option<Bytes>) -> Result<Scenario, ScenRefusal>
    requires { IfSome input.now (λ bytes. length bytes ≤ scenario_limit) }
    ensures read { Answers (λ s. s) result (scenario_of_input input.now) }
    ensures limits { IfOk result (λ s. IsWithinLimits s) }
{
    match input {
        Some(bytes) => read_scenario(alloc, bytes.as_slice()),
        None => Err(ScenRefusal::Fault(TOO_LONG)),
    }
}

/// The scenario of an input, which is let go.
pub fn scenario_of_input(alloc: Global, input: Option<Bytes>) -> Result<Scenario, ScenRefusal>
    requires { IfSome input (λ bytes. length bytes ≤ scenario_limit) }
    ensures read { Answers (λ s. s) result (scenario_of_input input) }
    ensures limits { IfOk result (λ s. IsWithinLimits s) }
{
    scenario_in(alloc, &input)
}
