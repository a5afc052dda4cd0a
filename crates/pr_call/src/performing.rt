//! A system call performed.
ghost use Rattle.std.specs.Prelude.{◌≡◌, true, Some, IsSome, IfOk, OnErr};
ghost use Rattle.std.specs.Option.{ForSome};
ghost use Rattle.pr_call.specs.Effects.{after_effect, effect_meant, effect_of, is_plain, outcome_of, takes_memory};
ghost use Rattle.pr_call.specs.Requests.{request_of};
ghost use Rattle.pr_model.specs.Lawful.{IsLawfulSystem};
ghost use Rattle.pr_model.specs.State.{live_process, lwp_of};

use crate::askings::request_of;
use crate::breaks::brk;
use crate::filing::{close, dup, fstat, lseek, open, pipe};
use crate::lwps::lwp_create;
use crate::making::make;
use crate::maps::mmap;
use crate::memory::{protect, unmap};
use crate::plain::{decide, is_plain};
use crate::processes::{exec_by, fork_by, vfork_by};
use crate::requests::{Effect, Performed, Request};
use crate::sending::send;
use crate::transfers::{read, write};
use crate::waits::wait;
use pr_num::{Info, NoMemory, Sysno};
use pr_proc::{Sys, live};
use std::alloc::Global;

/// What a plain call does, before anything changes.
fn decide_now(sys: &Sys, request: &Request) -> Effect
    requires plain { is_plain request.now.call ≡ true }
    requires live { IsSome (live_process sys.now request.now.pid) }
    requires lwp { ForSome (live_process sys.now request.now.pid) (λ p. IsSome (lwp_of p request.now.lwp)) }
    ensures { ForSome (live_process sys.now request.now.pid)
        (λ p. ForSome (lwp_of p request.now.lwp) (λ l. effect_meant l result ≡ effect_of sys.now p l request.now)) }
{
    let process = live(sys, request.pid).unwrap();
    let lwp = process.lwps.get(request.lwp).unwrap();
    decide(sys, process, lwp, request)
}

/// A plain call performed.
fn perform_plain(sys: &mut Sys, request: &Request) -> Performed
    requires plain { is_plain request.now.call ≡ true }
    requires live { IsSome (live_process sys.old request.now.pid) }
    requires lwp { ForSome (live_process sys.old request.now.pid) (λ p. IsSome (lwp_of p request.now.lwp)) }
    ensures system { ForSome (live_process sys.old request.now.pid)
        (λ p. ForSome (lwp_of p request.now.lwp)
        (λ l. sys.new ≡ after_effect request.now.pid p request.now.lwp l (effect_of sys.old p l request.now) sys.old)) }
    ensures outcome { ForSome (live_process sys.old request.now.pid)
        (λ p. ForSome (lwp_of p request.now.lwp) (λ l. result ≡ outcome_of (effect_of sys.old p l request.now))) }
{
    let effect = decide_now(sys, request);
    make(sys, request.pid, request.lwp, effect)
}

/// Performs this call of an lwp of a live process.
#[tactic(auto, unfolding(pr_model::specs::CallEffects::call_effect))]
fn perform_request(alloc: Global, sys: &mut Sys, request: &Request) -> Result<Performed, NoMemory>
    requires lawful { IsLawfulSystem sys.old }
    requires live { IsSome (live_process sys.old request.now.pid) }
    requires lwp { ForSome (live_process sys.old request.now.pid) (λ p. IsSome (lwp_of p request.now.lwp)) }
    requires asked { request_of sys.old request.now.pid request.now.lwp ≡ Some request.now }
    ensures system { IfOk result
        (λ outcome.
        ForSome (live_process sys.old request.now.pid)
        (λ p. ForSome (lwp_of p request.now.lwp)
        (λ l. sys.new
        ≡ after_effect request.now.pid p request.now.lwp l (effect_of sys.old p l request.now) sys.old))) }
    ensures outcome { IfOk result
        (λ outcome.
        ForSome (live_process sys.old request.now.pid)
        (λ p. ForSome (lwp_of p request.now.lwp) (λ l. outcome ≡ outcome_of (effect_of sys.old p l request.now)))) }
    ensures memory { OnErr result
        (ForSome (live_process sys.old request.now.pid)
        (λ p. ForSome (lwp_of p request.now.lwp)
        (λ l. takes_memory request.now.call (effect_of sys.old p l request.now) ≡ true))) }
    ensures err { OnErr result (sys.new ≡ sys.old) }
{
    if is_plain(request.call) {
        return Ok(perform_plain(sys, request));
    }
    let args = request.args;
    match request.call {
        Sysno::Kill => Ok(send(
            sys,
            request.pid,
            args[0],
            args[1],
            Info::killed_by(request.pid),
        )),
        Sysno::Sigqueue => Ok(send(
            sys,
            request.pid,
            args[0],
            args[1],
            Info::queued_by(request.pid, args[2]),
        )),
        Sysno::Munmap => Ok(unmap(sys, request.pid, args[0], args[1])),
        Sysno::Mprotect => Ok(protect(sys, request.pid, args[0], args[1], args[2])),
        Sysno::Mmap => mmap(alloc, sys, request.pid, args[0], args[1]),
        Sysno::Close => Ok(close(sys, request.pid, request.lwp, args[0])),
        Sysno::Dup => Ok(dup(sys, request.pid, request.lwp, args[0])),
        Sysno::Lseek => Ok(lseek(sys, request.pid, request.lwp, args[0], args[1])),
        Sysno::Fstat => fstat(sys, request.pid, request.lwp, args[0], args[1]),
        Sysno::Open => open(alloc, sys, request.pid, request.lwp, args[0], args[1]),
        Sysno::Pipe => pipe(alloc, sys, request.pid, request.lwp, args[0]),
        Sysno::Brk => brk(alloc, sys, request.pid, args[0]),
        Sysno::Wait => wait(sys, request.pid, args[0]),
        Sysno::Fork => fork_by(alloc, sys, request),
        Sysno::Vfork => vfork_by(alloc, sys, request),
        Sysno::Exec => exec_by(alloc, sys, request.pid, request.lwp, args[0]),
        Sysno::LwpCreate => lwp_create(sys, request.pid, request.lwp, args),
        Sysno::Read => read(sys, request.pid, request.lwp, args[0], args[1], args[2]),
        Sysno::Write => write(
            alloc,
            sys,
            request.pid,
            request.lwp,
            args[0],
            args[1],
            args[2],
        ),
        _ => unreachable!(),
    }
}

/// Performs the call at whose entry an lwp of a live process is, or in which it sleeps: the system is as the effect of
/// the call leaves it, and the answer is what comes of it. The result is not stored yet, and the lwp stays where it
/// was. Memory runs out only in some calls, and there only where the call is granted; in one that only stores bytes, only
/// where it stores some. The system then stays as it is.
pub fn perform(alloc: Global, sys: &mut Sys, pid: u32, lwp: u32) -> Result<Performed, NoMemory>
    requires lawful { IsLawfulSystem sys.old }
    requires call { IsSome (request_of sys.old pid lwp) }
    ensures system { IfOk result
        (λ outcome.
        ForSome (request_of sys.old pid lwp)
        (λ request.
        ForSome (live_process sys.old pid)
        (λ p. ForSome (lwp_of p lwp)
        (λ l. sys.new ≡ after_effect pid p lwp l (effect_of sys.old p l request) sys.old)))) }
    ensures outcome { IfOk result
        (λ outcome.
        ForSome (request_of sys.old pid lwp)
        (λ request.
        ForSome (live_process sys.old pid)
        (λ p. ForSome (lwp_of p lwp) (λ l. outcome ≡ outcome_of (effect_of sys.old p l request))))) }
    ensures memory { OnErr result
        (ForSome (request_of sys.old pid lwp)
        (λ request.
        ForSome (live_process sys.old pid)
        (λ p. ForSome (lwp_of p lwp) (λ l. takes_memory request.call (effect_of sys.old p l request) ≡ true)))) }
    ensures err { OnErr result (sys.new ≡ sys.old) }
{
    let request = request_of(sys, pid, lwp).unwrap();
    let outcome = perform_request(alloc, sys, &request)?;
    Ok(outcome)
}
