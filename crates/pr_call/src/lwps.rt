//! The system calls on lwps.
ghost use Rattle.std.specs.Prelude.{◌≡◌, true, IfOk, IfSome, IsSome, OnErr, is_some, slice_index};
ghost use Rattle.std.specs.Option.{ForSome};
ghost use Rattle.pr_call.specs.Effects.{after_effect, effect_meant, is_granted, outcome_of};
ghost use Rattle.pr_call.specs.Lwps.{is_full};
ghost use Rattle.pr_model.specs.LwpCalls.{can_be_named, lwp_continue_effect, lwp_create_effect, lwp_suspend_effect, made_registers};
ghost use Rattle.pr_model.specs.State.{TracedLwp, live_process, lwp_of};

use crate::requests::{Change, Effect, Performed};
use pr_model::Res;
use pr_num::limits::{LAST_LWP, LWP_LIMIT};
use pr_num::{AGENT, Errno, NoMemory};
use pr_proc::{Proc, Sys, id_of, live, make_lwp};

/// The lwp that another one names by a whole word, if it stands; the agent cannot be named.
fn named(process: &Proc, other: u64) -> Option<u32>
    ensures id { IfSome result (λ id. id ≡ other) }
    ensures some { is_some result ≡ can_be_named process.now other }
{
    if other == u64::from(AGENT) {
        return None;
    }
    id_of(&process.lwps, other)
}

/// lwp_suspend(2) by the lwp of an id. ESRCH: no such lwp, or the agent; EINVAL: itself.
#[tactic(auto, using(crate::proofs::LwpCallLemmas::suspending))]
pub fn lwp_suspend(process: &Proc, id: u32, other: u64) -> Effect
    ensures { (l : TracedLwp) → effect_meant l result ≡ lwp_suspend_effect process.now id other }
{
    match named(process, other) {
        None => Effect::Does(Res::Error(Errno::Srch), None),
        Some(own) if own == id => Effect::Does(Res::Error(Errno::Inval), None),
        Some(found) => Effect::Does(Res::Value(0), Some(Change::Suspended(found, true))),
    }
}

/// lwp_continue(2). ESRCH: no such lwp, or the agent.
#[tactic(auto, using(crate::proofs::LwpCallLemmas::continuing))]
pub fn lwp_continue(process: &Proc, other: u64) -> Effect
    ensures { (l : TracedLwp) → effect_meant l result ≡ lwp_continue_effect process.now other }
{
    match named(process, other) {
        None => Effect::Does(Res::Error(Errno::Srch), None),
        Some(found) => Effect::Does(Res::Value(0), Some(Change::Suspended(found, false))),
    }
}

/// The registers of an lwp that is made.
fn made_registers(pc: u64, sp: u64, r1: u64) -> [u64; 11]
    ensures { result ≡ made_registers pc sp r1 }
{
    let mut regs = [0; 11];
    regs[1] = r1;
    regs[8] = sp;
    regs[10] = pc;
    regs
}

/// Whether a process can have no lwp more: 64 of them stand, or no id is left.
fn is_full(process: &Proc) -> bool
    ensures { result ≡ is_full process.now }
{
    process.lwps.len() >= LWP_LIMIT || process.next_lwp > LAST_LWP
}

/// lwp_create(2) by an lwp of a live process, with the pc, the sp and the r1 of the new one. ENOTSUP: by the agent;
/// EAGAIN: 64 lwps stand, or no id is left. Memory runs out only where the call is granted, and the system then stays
/// as it is.
#[tactic(auto, using(crate::proofs::LwpCallLemmas::creating))]
pub fn lwp_create(sys: &mut Sys, pid: u32, id: u32, args: [u64; 6]) -> Result<Performed, NoMemory>
    requires live { IsSome (live_process sys.old pid) }
    requires lwp { ForSome (live_process sys.old pid) (λ p. IsSome (lwp_of p id)) }
    ensures system { IfOk result
        (λ outcome.
        ForSome (live_process sys.old pid)
        (λ p. ForSome (lwp_of p id)
        (λ l. sys.new
        ≡ after_effect pid p id l
        (lwp_create_effect p id l.held (slice_index args 0) (slice_index args 1) (slice_index args 2)) sys.old))) }
    ensures outcome { IfOk result
        (λ outcome.
        ForSome (live_process sys.old pid)
        (λ p. ForSome (lwp_of p id)
        (λ l. outcome
        ≡ outcome_of (lwp_create_effect p id l.held (slice_index args 0) (slice_index args 1) (slice_index args 2))))) }
    ensures memory { OnErr result
        (ForSome (live_process sys.old pid)
        (λ p. ForSome (lwp_of p id)
        (λ l. is_granted (lwp_create_effect p id l.held (slice_index args 0) (slice_index args 1) (slice_index args 2))
        ≡ true))) }
    ensures err { OnErr result (sys.new ≡ sys.old) }
{
    if id == AGENT {
        return Ok(Performed::Done(Res::Error(Errno::Notsup)));
    }
    let process = live(sys, pid).unwrap();
    if is_full(process) {
        return Ok(Performed::Done(Res::Error(Errno::Again)));
    }
    let next = process.next_lwp;
    let held = process.lwps.get(id).unwrap().held;
    make_lwp(
        sys,
        pid,
        next,
        made_registers(args[0], args[1], args[2]),
        held,
    )?;
    Ok(Performed::Done(Res::Value(u64::from(next))))
}
