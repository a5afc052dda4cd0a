ghost use Rattle.std.specs.Prelude.{◌≡◌, true, IfOk, OnErr, OnOk};
ghost use Rattle.pr_model.specs.InstructionEffects.{instruction_effect};
ghost use Rattle.pr_lwp.specs.Plain.{outcome_of, space_after, stores_bytes};
ghost use Rattle.pr_lwp.specs.Steps.{ran, stepped};

use crate::executing::{Outcome, execute};
use pr_mem::Space;
use pr_model::{Lwp, PC};
use pr_num::{Flt, NoMemory, Sysno};
use pr_watch::Areas;

/// What one instruction came to.
#[derive(Clone, Copy, Debug, PartialEq, Eq)]
pub enum Effect {
    /// It ran.
    Ran,
    /// It came to a system call.
    Sys(Sysno),
    /// It incurred a fault at an address.
    Fault(Flt, u64),
}

/// An instruction ran and left the registers as they are; a step mark is used up.
#[tactic(auto, unfolding(crate::specs::Steps::ran))]
fn use_step<P>(lwp: &mut Lwp<P>) -> Effect
    ensures { (record { lwp = lwp.new; effect = result }) ≡ ran lwp.old.regs lwp.old }
{
    if !lwp.control.step {
        return Effect::Ran;
    }
    lwp.control.step = false;
    Effect::Fault(Flt::Trace, lwp.regs[PC])
}

/// An instruction ran and left these registers.
#[tactic(auto, unfolding(crate::specs::Steps::ran))]
fn run<P>(lwp: &mut Lwp<P>, regs: [u64; 11]) -> Effect
    ensures { (record { lwp = lwp.new; effect = result }) ≡ ran regs lwp.old }
{
    lwp.regs = regs;
    use_step(lwp)
}

/// What an instruction makes of its lwp.
#[tactic(auto, unfolding(crate::specs::Steps::stepped))]
fn finish<P>(lwp: &mut Lwp<P>, outcome: Outcome) -> Effect
    ensures { (record { lwp = lwp.new; effect = result }) ≡ stepped outcome lwp.old }
{
    match outcome {
        Outcome::Runs(regs) => run(lwp, regs),
        Outcome::Calls(call, regs) => {
            lwp.regs = regs;
            Effect::Sys(call)
        }
        Outcome::Faults(fault, address) => Effect::Fault(fault, address),
        Outcome::RunsIntoWatch(address, regs) => {
            lwp.regs = regs;
            lwp.control.step = false;
            Effect::Fault(Flt::Watch, address)
        }
    }
}

/// Runs the instruction at pc. A fault changes neither registers nor memory, but one of an area that traps after the
/// access, and FLTTRACE, for which the lwp's step mark is used up. Only what stores bytes takes memory; where that runs
/// out nothing is changed.
pub fn step<P>(lwp: &mut Lwp<P>, space: &mut Space, areas: &Areas) -> Result<Effect, NoMemory>
    ensures lwp { IfOk result
        (λ effect. (record { lwp = lwp.new; effect = effect })
        ≡ stepped (outcome_of (instruction_effect space.old areas.now lwp.old.regs)) lwp.old) }
    ensures space { OnOk result (space.new ≡ space_after (instruction_effect space.old areas.now lwp.old.regs) space.old) }
    ensures memory { OnErr result (stores_bytes (instruction_effect space.old areas.now lwp.old.regs) ≡ true) }
    ensures kept_lwp { OnErr result (lwp.new ≡ lwp.old) }
    ensures kept_space { OnErr result (space.new ≡ space.old) }
{
    match execute(&mut lwp.regs, space, areas)? {
        None => Ok(use_step(lwp)),
        Some(outcome) => Ok(finish(lwp, outcome)),
    }
}
