//! The system calls on files and pipes as an lwp of a live process makes them.
ghost use Rattle.std.specs.Prelude.{◌≡◌, true, IfOk, IsSome, OnErr};
ghost use Rattle.std.specs.Option.{ForSome};
ghost use Rattle.pr_call.specs.Effects.{after_effect, is_granted, outcome_of, stores_bytes};
ghost use Rattle.pr_model.specs.FileCallRows.{close_effect, dup_effect, fstat_effect, lseek_effect, open_effect, pipe_effect};
ghost use Rattle.pr_model.specs.Lawful.{IsLawfulSystem};
ghost use Rattle.pr_model.specs.State.{TracedLwp, live_process};

use crate::answers::{settle, unless_no_memory};
use crate::files;
use crate::requests::Performed;
use pr_num::NoMemory;
use pr_proc::Sys;
use std::alloc::Global;

/// close(2). EBADF. Takes no memory.
#[tactic(auto, using(pr_proc::proofs::LifeLemmas::life_laws))]
pub fn close(sys: &mut Sys, pid: u32, id: u32, fd: u64) -> Performed
    requires live { IsSome (live_process sys.old pid) }
    ensures system { ForSome (live_process sys.old pid)
        (λ p. (l : TracedLwp)
        → sys.new ≡ after_effect pid p id l (close_effect sys.old.files p.fds p.space fd) sys.old) }
    ensures outcome { ForSome (live_process sys.old pid) (λ p. result ≡ outcome_of (close_effect sys.old.files p.fds p.space fd)) }
{
    let answer = files::close(&mut sys.files, &mut sys.processes.get_mut(pid).fds, fd);
    settle(sys, pid, id, answer)
}

/// dup(2). EBADF, EMFILE. Takes no memory.
#[tactic(auto, using(pr_proc::proofs::LifeLemmas::life_laws, crate::proofs::FilingLemmas::rooms))]
pub fn dup(sys: &mut Sys, pid: u32, id: u32, fd: u64) -> Performed
    requires lawful { IsLawfulSystem sys.old }
    requires live { IsSome (live_process sys.old pid) }
    ensures system { ForSome (live_process sys.old pid)
        (λ p. (l : TracedLwp) → sys.new ≡ after_effect pid p id l (dup_effect sys.old.files p.fds p.space fd) sys.old) }
    ensures outcome { ForSome (live_process sys.old pid) (λ p. result ≡ outcome_of (dup_effect sys.old.files p.fds p.space fd)) }
{
    let answer = files::dup(&mut sys.files, &mut sys.processes.get_mut(pid).fds, fd);
    settle(sys, pid, id, answer)
}

/// lseek(2). EBADF, ESPIPE, EINVAL. Takes no memory.
#[tactic(auto, using(pr_proc::proofs::LifeLemmas::life_laws))]
pub fn lseek(sys: &mut Sys, pid: u32, id: u32, fd: u64, offset: u64) -> Performed
    requires live { IsSome (live_process sys.old pid) }
    ensures system { ForSome (live_process sys.old pid)
        (λ p. (l : TracedLwp)
        → sys.new ≡ after_effect pid p id l (lseek_effect sys.old.files p.fds p.space fd offset) sys.old) }
    ensures outcome { ForSome (live_process sys.old pid)
        (λ p. result ≡ outcome_of (lseek_effect sys.old.files p.fds p.space fd offset)) }
{
    let process = sys.processes.get_mut(pid);
    let answer = files::lseek(&mut sys.files, &process.fds, fd, offset);
    settle(sys, pid, id, answer)
}

/// fstat(2). EBADF, EFAULT. Memory runs out only where none of these comes, and the system then stays as it is.
#[tactic(auto, using(pr_proc::proofs::LifeLemmas::life_laws))]
pub fn fstat(sys: &mut Sys, pid: u32, id: u32, fd: u64, at: u64) -> Result<Performed, NoMemory>
    requires live { IsSome (live_process sys.old pid) }
    ensures system { IfOk result
        (λ outcome.
        ForSome (live_process sys.old pid)
        (λ p. (l : TracedLwp)
        → sys.new ≡ after_effect pid p id l (fstat_effect sys.old.files p.fds p.space fd at) sys.old)) }
    ensures outcome { IfOk result
        (λ outcome.
        ForSome (live_process sys.old pid)
        (λ p. outcome ≡ outcome_of (fstat_effect sys.old.files p.fds p.space fd at))) }
    ensures memory { OnErr result
        (ForSome (live_process sys.old pid)
        (λ p. stores_bytes (fstat_effect sys.old.files p.fds p.space fd at) ≡ true)) }
    ensures err { OnErr result (sys.new ≡ sys.old) }
{
    let process = sys.processes.get_mut(pid);
    let answer = files::fstat(&sys.files, &process.fds, &mut process.space, fd, at);
    let answer = unless_no_memory(answer)?;
    Ok(settle(sys, pid, id, answer))
}

/// open(2). EFAULT, EINVAL, ENOENT, EMFILE, ENFILE. Memory runs out only where none of these comes, and the system then
/// stays as it is.
#[tactic(auto, using(pr_proc::proofs::LifeLemmas::life_laws))]
pub fn open(
    alloc: Global,
    sys: &mut Sys,
    pid: u32,
    id: u32,
    at: u64,
    flags: u64,
) -> Result<Performed, NoMemory>
    requires live { IsSome (live_process sys.old pid) }
    ensures system { IfOk result
        (λ outcome.
        ForSome (live_process sys.old pid)
        (λ p. (l : TracedLwp)
        → sys.new ≡ after_effect pid p id l (open_effect sys.old.files p.fds p.space at flags) sys.old)) }
    ensures outcome { IfOk result
        (λ outcome.
        ForSome (live_process sys.old pid)
        (λ p. outcome ≡ outcome_of (open_effect sys.old.files p.fds p.space at flags))) }
    ensures memory { OnErr result
        (ForSome (live_process sys.old pid)
        (λ p. is_granted (open_effect sys.old.files p.fds p.space at flags) ≡ true)) }
    ensures err { OnErr result (sys.new ≡ sys.old) }
{
    let process = sys.processes.get_mut(pid);
    let answer = files::open(
        alloc,
        &mut sys.files,
        &mut process.fds,
        &process.space,
        at,
        flags,
    );
    let answer = unless_no_memory(answer)?;
    Ok(settle(sys, pid, id, answer))
}

/// pipe(2). EFAULT, EMFILE, ENFILE. Memory runs out only where none of these comes, and the system then stays as it is.
#[tactic(auto, using(pr_proc::proofs::LifeLemmas::life_laws))]
pub fn pipe(alloc: Global, sys: &mut Sys, pid: u32, id: u32, at: u64) -> Result<Performed, NoMemory>
    requires live { IsSome (live_process sys.old pid) }
    ensures system { IfOk result
        (λ outcome.
        ForSome (live_process sys.old pid)
        (λ p. (l : TracedLwp)
        → sys.new ≡ after_effect pid p id l (pipe_effect sys.old.files p.fds p.space at) sys.old)) }
    ensures outcome { IfOk result
        (λ outcome.
        ForSome (live_process sys.old pid) (λ p. outcome ≡ outcome_of (pipe_effect sys.old.files p.fds p.space at))) }
    ensures memory { OnErr result
        (ForSome (live_process sys.old pid)
        (λ p. is_granted (pipe_effect sys.old.files p.fds p.space at) ≡ true)) }
    ensures err { OnErr result (sys.new ≡ sys.old) }
{
    let process = sys.processes.get_mut(pid);
    let answer = files::pipe(
        alloc,
        &mut sys.files,
        &mut process.fds,
        &mut process.space,
        at,
    );
    let answer = unless_no_memory(answer)?;
    Ok(settle(sys, pid, id, answer))
}
