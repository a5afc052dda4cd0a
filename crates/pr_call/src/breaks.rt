//! brk(2).
ghost use Rattle.std.specs.Prelude.{◌≡◌, true, ℕ, All, IfNone, IfOk, IsSome, OnErr, OnOk};
ghost use Rattle.std.specs.Option.{ForSome};
ghost use Rattle.pr_call.specs.Breaks.{CanStand, break_meant};
ghost use Rattle.pr_call.specs.Effects.{after_effect, is_granted, outcome_of};
ghost use Rattle.pr_model.specs.Lawful.{IsLawfulSystem};
ghost use Rattle.pr_model.specs.MemoryCalls.{brk_effect};
ghost use Rattle.pr_model.specs.State.{TracedLwp, live_process};
ghost use Rattle.pr_parts.specs.AddressSpaces.{LeavesHeapPlace, with_break};

use crate::requests::Performed;
use pr_mem::{MemFault, Space};
use pr_model::Res;
use pr_num::{Errno, NoMemory};
use pr_proc::{Proc, Sys, live, size_of, total_has_room};
use std::alloc::Global;

/// Why a process's break is not moved to an address. EINVAL: it cannot stand there; ENOMEM: the process, or all
/// processes, would have too much mapped.
#[tactic(auto, using(crate::proofs::BreakLemmas::break_laws))]
fn refusal_of(sys: &Sys, process: &Proc, end: u64) -> Option<Errno>
    ensures effect { break_meant process.now.space end result ≡ brk_effect sys.now process.now end }
    ensures fits { IfNone result (CanStand process.now.space end) }
{
    if end < Space::HEAP || end > Space::BREAK_LIMIT {
        return Some(Errno::Inval);
    }
    let size = process.space.size_with_break(end);
    if size > Space::LIMIT || !total_has_room(sys, size, size_of(process)) {
        return Some(Errno::Nomem);
    }
    None
}

/// Moves the break to where it can stand.
fn move_break(alloc: Global, space: &mut Space, end: u64) -> Result<(), NoMemory>
    requires can { CanStand space.old end }
    requires place { All LeavesHeapPlace space.old }
    ensures ok { OnOk result (space.new ≡ with_break end space.old) }
    ensures err { OnErr result (space.new ≡ space.old) }
{
    match space.brk(alloc, end) {
        Ok(()) => Ok(()),
        Err(MemFault::NoMemory) => Err(NoMemory),
        Err(_) => unreachable!(),
    }
}

/// brk(2) by a live process: its break comes to an address. EINVAL, ENOMEM. Memory runs out only where neither comes,
/// and the system then stays as it is.
#[tactic(auto, using(pr_proc::proofs::LifeLemmas::life_laws, pr_num::proofs::ByIdLaws::by_id_laws))]
pub fn brk(alloc: Global, sys: &mut Sys, pid: u32, end: u64) -> Result<Performed, NoMemory>
    requires lawful { IsLawfulSystem sys.old }
    requires live { IsSome (live_process sys.old pid) }
    ensures system { IfOk result
        (λ outcome.
        ForSome (live_process sys.old pid)
        (λ p. (id : ℕ) (l : TracedLwp) → sys.new ≡ after_effect pid p id l (brk_effect sys.old p end) sys.old)) }
    ensures outcome { IfOk result
        (λ outcome. ForSome (live_process sys.old pid) (λ p. outcome ≡ outcome_of (brk_effect sys.old p end))) }
    ensures memory { OnErr result (ForSome (live_process sys.old pid) (λ p. is_granted (brk_effect sys.old p end) ≡ true)) }
    ensures err { OnErr result (sys.new ≡ sys.old) }
{
    match refusal_of(sys, live(sys, pid).unwrap(), end) {
        Some(error) => Ok(Performed::Done(Res::Error(error))),
        None => {
            move_break(alloc, &mut sys.processes.get_mut(pid).space, end)?;
            Ok(Performed::Done(Res::Value(0)))
        }
    }
}
