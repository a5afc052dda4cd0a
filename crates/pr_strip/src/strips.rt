//! The untraced steps of a history: what the machine without controllers would have done of it.
ghost use Rattle.std.specs.Prelude.{◌≡◌, ◌++◌, [], ◌∷◌, OnErr, OnOk, IfOk};
ghost use Rattle.pr_strip.specs.Pasts.{past_of};
ghost use Rattle.pr_model.specs.UntracedSteps.{steps_of_fault, steps_of_turn, steps_of_call, steps_of, untraced_steps};

use crate::pasts::Past;
use crate::remembering::remember;
use pr_model::{Act, Actor, Call, Did, Entry, History, Reply, Step, Steps};
use pr_num::{Flt, NoMemory};
use std::alloc::Global;

/// Puts a step after others.
fn put(steps: &mut Vec<Step>, step: Step) -> Result<(), NoMemory>
    ensures put { OnOk result (steps.new.items ≡ steps.old.items ++ step ∷ []) }
    ensures kept { OnErr result (steps.new.items ≡ steps.old.items) }
{
    Ok(steps.push(step)?)
}

/// Puts what a fault is. FLTTRACE comes after an instruction that was run, but for an lwp on its way out of a system
/// call.
fn push_fault(
    steps: &mut Vec<Step>,
    returning: bool,
    pid: u32,
    lwp: u32,
    fault: Flt,
) -> Result<(), NoMemory>
    ensures { OnOk result (steps.new.items ≡ steps.old.items ++ steps_of_fault returning pid lwp fault) }
{
    if fault == Flt::Trace && !returning {
        put(steps, Step::Exec(pid, lwp))?;
    }
    put(steps, Step::Fault(pid, lwp, fault))
}

/// Puts what a turn of an lwp is; `returning` says whether the lwp was on its way out of a system call.
pub fn push_turn(
    steps: &mut Vec<Step>,
    returning: bool,
    pid: u32,
    lwp: u32,
    did: Did,
) -> Result<(), NoMemory>
    ensures { OnOk result (steps.new.items ≡ steps.old.items ++ steps_of_turn returning pid lwp did) }
{
    match did {
        Did::Ran => put(steps, Step::Exec(pid, lwp)),
        Did::Made(call, res) => put(steps, Step::Call(pid, lwp, call, res)),
        Did::Slept(call) => put(steps, Step::Sleep(pid, lwp, call)),
        Did::Woke(call, res) => put(steps, Step::Finish(pid, lwp, call, res)),
        Did::Faulted(fault) => push_fault(steps, returning, pid, lwp, fault),
        Did::Took(sig) => put(steps, Step::Take(pid, lwp, sig)),
        Did::Acted(sig, _) => put(steps, Step::Act(pid, lwp, sig)),
        Did::Stopped | Did::Entered(_) | Did::Returned(_) | Did::Posted(_) => Ok(()),
    }
}

/// Puts what a call of a controller is: a spawn and a signal that were granted come from outside.
fn push_call(steps: &mut Vec<Step>, call: &Call, reply: &Reply) -> Result<(), NoMemory>
    ensures { OnOk result (steps.new.items ≡ steps.old.items ++ steps_of_call call.now reply.now) }
{
    match (call, reply) {
        (Call::Spawn { program, .. }, Reply::Pid(_)) => put(steps, Step::Spawn(*program)),
        (Call::Kill { pid, sig }, Reply::Done) => put(steps, Step::Kill(*pid, *sig)),
        _ => Ok(()),
    }
}

/// Puts what an entry is, after those that are remembered.
#[tactic(auto, unfolding(pr_model::specs::UntracedSteps::steps_of))]
pub fn push_steps(steps: &mut Vec<Step>, past: &Past, entry: &Entry) -> Result<(), NoMemory>
    ensures { OnOk result (steps.new.items ≡ steps.old.items ++ steps_of (past_of past.now) entry.now) }
{
    match (entry.actor, &entry.act) {
        (Actor::Controller(_), Act::Call(call, reply)) => push_call(steps, call, reply),
        (Actor::Lwp(pid, lwp), Act::Turn(turned)) => {
            push_turn(steps, past.is_returning(pid, lwp), pid, lwp, turned.did)
        }
        (Actor::Clock, Act::Tick(_)) => put(steps, Step::Tick),
        _ => Ok(()),
    }
}

/// The untraced steps of a history, in its order. Any history has them, also one that no machine makes. Each entry is
/// read once.
#[tactic(auto, using(crate::proofs::StepLemmas::strips))]
pub fn strip(alloc: Global, history: &History) -> Result<Steps, NoMemory>
    ensures { IfOk result (λ steps. steps ≡ untraced_steps history.now.entries) }
{
    let mut past = Past::new(alloc);
    let mut steps = Vec::new(alloc);
    for i in 0..history.len() {
        if let Some(entry) = history.get(i) {
            push_steps(&mut steps, &past, entry)?;
            remember(&mut past, entry)?;
        }
    }
    Ok(Steps::from_vec(steps))
}
