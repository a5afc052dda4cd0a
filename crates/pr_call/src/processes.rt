//! fork(2), vfork(2) and exec(2).
ghost use Rattle.std.specs.Prelude.{◌≡◌, ◌==◌, ◌||◌, ◌<◌, Some, true, not, IfOk, IsSome, OnErr, length};
ghost use Rattle.std.specs.Option.{ForSome};
ghost use Rattle.pr_num.specs.Agents.{agent_id};
ghost use Rattle.pr_call.specs.Effects.{after_effect, is_granted, outcome_of};
ghost use Rattle.pr_call.specs.Processes.{target_effect};
ghost use Rattle.pr_call.specs.Requests.{request_of};
ghost use Rattle.pr_model.specs.Lawful.{IsLawfulSystem};
ghost use Rattle.pr_model.specs.ProcessCalls.{exec_effect, fork_effect, vfork_effect};
ghost use Rattle.pr_model.specs.State.{live_process, lwp_of};

use crate::paths::path_at;
use crate::requests::{Performed, Request};
use pr_model::Res;
use pr_num::limits::PATH_LIMIT;
use pr_num::{AGENT, Errno, NoMemory};
use pr_proc::{Sys, errno_of, exec, fork, lend, live, program_named};
use std::alloc::Global;

/// fork(2) by an lwp of a live process, which makes this call, gives the child's id. ENOTSUP: by the agent; EAGAIN: as
/// many processes were made as can be; ENOMEM: too much would be mapped. Memory runs out only where the call is
/// granted, and the system then stays as it is.
#[tactic(auto, using(crate::proofs::ForkLemmas::births))]
pub fn fork_by(alloc: Global, sys: &mut Sys, request: &Request) -> Result<Performed, NoMemory>
    requires lawful { IsLawfulSystem sys.old }
    requires live { IsSome (live_process sys.old request.now.pid) }
    requires lwp { ForSome (live_process sys.old request.now.pid) (λ p. IsSome (lwp_of p request.now.lwp)) }
    requires asked { request_of sys.old request.now.pid request.now.lwp ≡ Some request.now }
    ensures system { IfOk result
        (λ outcome.
        ForSome (live_process sys.old request.now.pid)
        (λ p. ForSome (lwp_of p request.now.lwp)
        (λ l. sys.new
        ≡ after_effect request.now.pid p request.now.lwp l
        (fork_effect sys.old p request.now.lwp request.now.args) sys.old))) }
    ensures outcome { IfOk result
        (λ outcome.
        ForSome (live_process sys.old request.now.pid)
        (λ p. outcome ≡ outcome_of (fork_effect sys.old p request.now.lwp request.now.args))) }
    ensures memory { OnErr result
        (ForSome (live_process sys.old request.now.pid)
        (λ p. is_granted (fork_effect sys.old p request.now.lwp request.now.args) ≡ true)) }
    ensures err { OnErr result (sys.new ≡ sys.old) }
{
    let pid = request.pid;
    let id = request.lwp;
    if id == AGENT {
        return Ok(Performed::Done(Res::Error(Errno::Notsup)));
    }
    match fork(alloc, sys, pid, id) {
        Ok(child) => Ok(Performed::Done(Res::Value(u64::from(child)))),
        Err(reason) => {
            let error = errno_of(reason)?;
            Ok(Performed::Done(Res::Error(error)))
        }
    }
}

/// Whether an lwp of a live process cannot lend it: it is the agent, or stands beside another one.
fn cannot_lend(sys: &Sys, pid: u32, id: u32) -> bool
    requires { IsSome (live_process sys.now pid) }
    ensures { ForSome (live_process sys.now pid) (λ p. result ≡ ((id == agent_id) || not (length p.lwps == 1))) }
{
    id == AGENT || live(sys, pid).unwrap().lwps.len() != 1
}

/// vfork(2) by an lwp of a live process, which makes this call, gives the child's id; the child borrows the memory of
/// the process. ENOTSUP: by the agent, or beside another lwp; EAGAIN: as many processes were made as can be. Memory
/// runs out only where the call is granted, and the system then stays as it is.
#[tactic(auto, using(crate::proofs::ForkLemmas::births))]
pub fn vfork_by(alloc: Global, sys: &mut Sys, request: &Request) -> Result<Performed, NoMemory>
    requires lawful { IsLawfulSystem sys.old }
    requires live { IsSome (live_process sys.old request.now.pid) }
    requires lwp { ForSome (live_process sys.old request.now.pid) (λ p. IsSome (lwp_of p request.now.lwp)) }
    requires asked { request_of sys.old request.now.pid request.now.lwp ≡ Some request.now }
    ensures system { IfOk result
        (λ outcome.
        ForSome (live_process sys.old request.now.pid)
        (λ p. ForSome (lwp_of p request.now.lwp)
        (λ l. sys.new
        ≡ after_effect request.now.pid p request.now.lwp l
        (vfork_effect sys.old p request.now.lwp request.now.args) sys.old))) }
    ensures outcome { IfOk result
        (λ outcome.
        ForSome (live_process sys.old request.now.pid)
        (λ p. outcome ≡ outcome_of (vfork_effect sys.old p request.now.lwp request.now.args))) }
    ensures memory { OnErr result
        (ForSome (live_process sys.old request.now.pid)
        (λ p. is_granted (vfork_effect sys.old p request.now.lwp request.now.args) ≡ true)) }
    ensures err { OnErr result (sys.new ≡ sys.old) }
{
    let pid = request.pid;
    let id = request.lwp;
    if cannot_lend(sys, pid, id) {
        return Ok(Performed::Done(Res::Error(Errno::Notsup)));
    }
    match lend(alloc, sys, pid, id) {
        Ok(borrower) => Ok(Performed::Done(Res::Value(u64::from(borrower)))),
        Err(reason) => {
            let error = errno_of(reason)?;
            Ok(Performed::Done(Res::Error(error)))
        }
    }
}

/// The place of the program that the path at an address names, for exec(2) by an lwp of a live process. ENOTSUP: by the
/// agent; EFAULT, EINVAL: the path; ENOENT: no such program.
#[tactic(auto, using(crate::proofs::ProgramLemmas::naming))]
fn target(sys: &Sys, pid: u32, id: u32, at: u64) -> Result<u32, Errno>
    requires { IsSome (live_process sys.now pid) }
    ensures effect { ForSome (live_process sys.now pid) (λ p. target_effect sys.now p id result ≡ exec_effect sys.now p id at) }
    ensures within { IfOk result (λ place. place < length sys.now.programs) }
{
    if id == AGENT {
        return Err(Errno::Notsup);
    }
    let mut path = [0; PATH_LIMIT];
    let process = live(sys, pid).unwrap();
    let len = path_at(&process.space, at, &mut path)?;
    let Some(place) = program_named(sys, &path[..len]) else {
        return Err(Errno::Noent);
    };
    Ok(place)
}

/// exec(2) by an lwp of a live process, of the program that a path names; memory that it borrowed goes back. ENOMEM:
/// too much would be mapped. Memory runs out only where the call is granted, and the system then stays as it is.
#[tactic(auto, using(crate::proofs::ProgramLemmas::running))]
pub fn exec_by(
    alloc: Global,
    sys: &mut Sys,
    pid: u32,
    id: u32,
    at: u64,
) -> Result<Performed, NoMemory>
    requires live { IsSome (live_process sys.old pid) }
    requires lwp { ForSome (live_process sys.old pid) (λ p. IsSome (lwp_of p id)) }
    ensures system { IfOk result
        (λ outcome.
        ForSome (live_process sys.old pid)
        (λ p. ForSome (lwp_of p id) (λ l. sys.new ≡ after_effect pid p id l (exec_effect sys.old p id at) sys.old))) }
    ensures outcome { IfOk result
        (λ outcome. ForSome (live_process sys.old pid) (λ p. outcome ≡ outcome_of (exec_effect sys.old p id at))) }
    ensures memory { OnErr result (ForSome (live_process sys.old pid) (λ p. is_granted (exec_effect sys.old p id at) ≡ true)) }
    ensures err { OnErr result (sys.new ≡ sys.old) }
{
    let place = match target(sys, pid, id, at) {
        Ok(place) => place,
        Err(error) => return Ok(Performed::Done(Res::Error(error))),
    };
    match exec(alloc, sys, pid, id, place) {
        Ok(()) => Ok(Performed::Done(Res::Value(0))),
        Err(reason) => {
            let error = errno_of(reason)?;
            Ok(Performed::Done(Res::Error(error)))
        }
    }
}
