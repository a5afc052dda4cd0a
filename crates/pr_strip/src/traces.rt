//! The trace of a history: its calls that were made or are over, its faults and its taken signals.
ghost use Rattle.std.specs.Prelude.{◌≡◌, ◌++◌, OnOk, IfOk, option_to_list};
ghost use Rattle.std.specs.List.{flat_map};
ghost use Rattle.pr_model.specs.UntracedMachine.{traced_step};
ghost use Rattle.pr_model.specs.UntracedSteps.{trace_of_turn, trace_of, untraced_trace};

use pr_model::{Act, Actor, Did, Entry, History, Step, Steps, Trace};
use pr_num::NoMemory;
use std::alloc::{AllocError, Global};

/// What a turn is in a trace.
fn trace_of_turn(pid: u32, lwp: u32, did: Did) -> Option<Step>
    ensures { option_to_list result ≡ trace_of_turn pid lwp did }
{
    match did {
        Did::Made(call, res) => Some(Step::Call(pid, lwp, call, res)),
        Did::Woke(call, res) => Some(Step::Call(pid, lwp, call, res)),
        Did::Faulted(fault) => Some(Step::Fault(pid, lwp, fault)),
        Did::Took(sig) => Some(Step::Take(pid, lwp, sig)),
        _ => None,
    }
}

/// What an entry is in a trace.
#[tactic(auto, unfolding(pr_model::specs::UntracedSteps::trace_of))]
fn trace_of(entry: &Entry) -> Option<Step>
    ensures { option_to_list result ≡ trace_of entry.now }
{
    let Actor::Lwp(pid, lwp) = entry.actor else {
        return None;
    };
    match &entry.act {
        Act::Turn(turned) => trace_of_turn(pid, lwp, turned.did),
        _ => None,
    }
}

/// Puts what an entry is in a trace after what stands there.
fn push_trace(steps: &mut Vec<Step>, entry: &Entry) -> Result<(), AllocError>
    ensures { OnOk result (steps.new.items ≡ steps.old.items ++ trace_of entry.now) }
{
    if let Some(step) = trace_of(entry) {
        steps.push(step)?;
    }
    Ok(())
}

/// The trace of a history, in its order.
#[tactic(auto, using(crate::proofs::TraceLemmas::traces), unfolding(pr_model::specs::UntracedSteps::untraced_trace))]
pub fn trace(alloc: Global, history: &History) -> Result<Trace, NoMemory>
    ensures { IfOk result (λ t. t ≡ untraced_trace history.now.entries) }
{
    let mut steps = Vec::new(alloc);
    for i in 0..history.len() {
        if let Some(entry) = history.get(i) {
            push_trace(&mut steps, entry)?;
        }
    }
    Ok(Trace::from_vec(steps))
}

/// What a step is in a trace: a call that is over, a fault or a signal that was taken.
fn traced_step(step: Step) -> Option<Step>
    ensures { option_to_list result ≡ traced_step step }
{
    match step {
        Step::Call(pid, lwp, call, res) => Some(Step::Call(pid, lwp, call, res)),
        Step::Finish(pid, lwp, call, res) => Some(Step::Call(pid, lwp, call, res)),
        Step::Fault(pid, lwp, fault) => Some(Step::Fault(pid, lwp, fault)),
        Step::Take(pid, lwp, sig) => Some(Step::Take(pid, lwp, sig)),
        _ => None,
    }
}

/// Puts what a step is in a trace after what stands there.
fn push_traced(trace: &mut Vec<Step>, step: Step) -> Result<(), AllocError>
    ensures { OnOk result (trace.new.items ≡ trace.old.items ++ traced_step step) }
{
    if let Some(step) = traced_step(step) {
        trace.push(step)?;
    }
    Ok(())
}

/// The trace of steps, in their order.
#[tactic(auto, using(crate::proofs::TraceLemmas::traces))]
pub fn trace_of_steps(alloc: Global, steps: &Steps) -> Result<Trace, NoMemory>
    ensures { IfOk result (λ t. t ≡ flat_map traced_step steps.now) }
{
    let mut trace = Vec::new(alloc);
    for step in steps.as_slice() {
        push_traced(&mut trace, *step)?;
    }
    Ok(Trace::from_vec(trace))
}
