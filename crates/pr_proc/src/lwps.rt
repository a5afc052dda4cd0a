//! How lwps begin, are suspended and end.
ghost use Rattle.std.specs.Prelude.{◌≡◌, ◌+◌, ◌<◌, ◌^◌, IsSome, OnOk, OnErr, false};
ghost use Rattle.std.specs.Option.{ForSome};
ghost use Rattle.pr_model.specs.Changes.{with_suspended};
ghost use Rattle.pr_model.specs.Lives.{new_lwp, with_lwp_ended, with_new_lwp, without_lwp};
ghost use Rattle.pr_model.specs.Machines.{no_marks, traced};
ghost use Rattle.pr_model.specs.State.{live_process, with_lwp, with_process};

use crate::{Lwp, Proc, Sys, end, live};
use pr_model::{Frames, LwpControl, LwpOf, Phase};
use pr_num::{NoMemory, SigSet};
use pr_sig::Pendings;

/// No stop and no mark, but perhaps a directive to stop.
#[tactic(auto, unfolding(pr_model::specs::Machines::no_marks))]
pub(crate) fn no_marks(directed: bool) -> LwpControl
    ensures { result ≡ no_marks directed }
{
    LwpControl {
        stop: None,
        directed,
        step: false,
        abort: false,
    }
}

/// An lwp in its program with these registers and this held set, with nothing pending, directed to stop or not.
#[tactic(auto, unfolding(pr_model::specs::Lives::new_lwp, pr_model::specs::Machines::traced))]
pub(crate) fn new_lwp(regs: [u64; 11], held: SigSet, directed: bool) -> Lwp
    ensures { result ≡ new_lwp traced regs held (no_marks directed) }
{
    LwpOf {
        regs,
        held,
        pending: Pendings::new(),
        current: None,
        frames: Frames::new(),
        suspended: false,
        phase: Phase::User,
        control: no_marks(directed),
    }
}

#[tactic(auto, unfolding(pr_model::specs::Lives::with_new_lwp, pr_model::specs::Machines::traced))]
fn add_lwp(process: &mut Proc, id: u32, regs: [u64; 11], held: SigSet) -> Result<(), NoMemory>
    requires { id + 1 < 2 ^ 32 }
    ensures ok { OnOk result (process.new ≡ with_new_lwp traced id regs held process.old) }
    ensures err { OnErr result (process.new ≡ process.old) }
{
    if process.lwps.contains(id) {
        return Ok(());
    }
    process.lwps.insert(id, new_lwp(regs, held, false))?;
    process.next_lwp = id + 1;
    Ok(())
}

/// Makes an lwp in a process under an id, with these registers and this held set (lwp_create(2)); where an lwp of that
/// id stands, and where memory runs out, the system stays as it is.
#[tactic(auto, using(pr_num::proofs::ByIdLaws::by_id_laws, crate::proofs::LifeLemmas::life_laws), unfolding(pr_model::specs::State::with_process))]
pub fn make_lwp(
    sys: &mut Sys,
    pid: u32,
    id: u32,
    regs: [u64; 11],
    held: SigSet,
) -> Result<(), NoMemory>
    requires live { IsSome (live_process sys.old pid) }
    requires next { id + 1 < 2 ^ 32 }
    ensures ok { OnOk result (sys.new ≡ with_process pid (with_new_lwp traced id regs held) sys.old) }
    ensures err { OnErr result (sys.new ≡ sys.old) }
{
    add_lwp(sys.processes.get_mut(pid), id, regs, held)
}

#[tactic(auto, unfolding(pr_model::specs::Changes::with_suspended))]
fn set_suspended(lwp: &mut Lwp, suspended: bool)
    ensures { lwp.new ≡ with_suspended suspended lwp.old }
{
    lwp.suspended = suspended;
}

/// Suspends an lwp of a process, or lets it go on (lwp_suspend(2), lwp_continue(2)). Takes no memory.
#[tactic(auto, using(pr_num::proofs::ByIdLaws::by_id_laws), unfolding(pr_model::specs::State::with_lwp))]
pub fn suspend(process: &mut Proc, id: u32, suspended: bool)
    ensures { process.new ≡ with_lwp id (with_suspended suspended) process.old }
{
    if let Some(lwp) = process.lwps.find_mut(id) {
        set_suspended(lwp, suspended);
    }
}

#[tactic(auto, using(pr_num::proofs::ByIdLaws::by_id_laws), unfolding(pr_model::specs::Lives::without_lwp))]
fn remove_lwp(process: &mut Proc, id: u32)
    ensures { process.new ≡ without_lwp id process.old }
{
    if process.lwps.contains(id) {
        process.lwps.remove(id);
    }
}

/// Ends an lwp of a live process, and with the last one the process, with wait status 0. Takes no memory.
#[tactic(auto, using(pr_num::proofs::ByIdLaws::by_id_laws, crate::proofs::LifeLemmas::life_laws, crate::proofs::LifeLemmas::last_lwp_laws), unfolding(pr_model::specs::Lives::with_lwp_ended, pr_model::specs::State::with_process))]
pub fn end_lwp(sys: &mut Sys, pid: u32, id: u32)
    requires { IsSome (live_process sys.old pid) }
    ensures { ForSome (live_process sys.old pid) (λ p. sys.new ≡ with_lwp_ended traced pid p id sys.old) }
{
    let process = live(sys, pid).unwrap();
    if process.lwps.len() == 1 {
        end(sys, pid, 0);
        return;
    }
    remove_lwp(sys.processes.get_mut(pid), id);
}
