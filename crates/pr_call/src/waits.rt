//! wait(3C).
ghost use Rattle.std.specs.Prelude.{◌≡◌, ℕ, IfOk, IsSome, OnErr, true, false};
ghost use Rattle.std.specs.Option.{ForSome};
ghost use Rattle.pr_num.specs.Spaces.{Space as AnySpace};
ghost use Rattle.pr_num.specs.Words.{word_bytes};
ghost use Rattle.pr_parts.specs.AddressSpaces.{with_bytes};
ghost use Rattle.pr_call.specs.Effects.{after_effect, outcome_of, stores_bytes};
ghost use Rattle.pr_call.specs.Waits.{reaped_by};
ghost use Rattle.pr_model.specs.Changes.{is_over, with_space};
ghost use Rattle.pr_model.specs.FileCallRows.{word_size};
ghost use Rattle.pr_model.specs.MemoryCalls.{can_write};
ghost use Rattle.pr_model.specs.ProcessCalls.{wait_effect};
ghost use Rattle.pr_model.specs.Readers.{children_of, first_zombie};
ghost use Rattle.pr_model.specs.State.{TracedLwp, live_process, with_process};

use crate::requests::Performed;
use crate::stores::{can_write, store};
use pr_mem::Space;
use pr_model::Res;
use pr_num::{Errno, NoMemory};
use pr_proc::{Children, Sys, children, reap};

/// Stores a wait status, if all of it can be written; else, and where memory runs out, the space stays as it is.
#[tactic(auto, unfolding(pr_num::specs::Words::word_bytes))]
fn store_status(space: &mut Space, at: u64, status: u64) -> Result<bool, NoMemory>
    ensures can { IfOk result (λ done. done ≡ can_write space.old at word_size) }
    ensures stored { IfOk result (λ done. done ≡ true → space.new ≡ with_bytes at (word_bytes status) space.old) }
    ensures kept { IfOk result (λ done. done ≡ false → space.new ≡ space.old) }
    ensures lacks { OnErr result (can_write space.old at word_size ≡ true) }
    ensures err { OnErr result (space.new ≡ space.old) }
{
    let bytes = status.to_le_bytes();
    if !can_write(space, at, bytes.len()) {
        return Ok(false);
    }
    store(space, at, &bytes)?;
    Ok(true)
}

/// The same in the memory of the live process of an id.
#[tactic(auto, using(crate::proofs::WaitLemmas::storing_in, pr_proc::proofs::LifeLemmas::life_laws))]
fn store_in(sys: &mut Sys, pid: u32, at: u64, status: u64) -> Result<bool, NoMemory>
    requires { IsSome (live_process sys.old pid) }
    ensures can { IfOk result (λ done. ForSome (live_process sys.old pid) (λ p. done ≡ can_write p.space at word_size)) }
    ensures stored { IfOk result
        (λ done.
        ForSome (live_process sys.old pid)
        (λ p. done ≡ true
        → sys.new ≡ with_process pid (with_space (with_bytes at (word_bytes status) p.space)) sys.old)) }
    ensures kept { IfOk result (λ done. done ≡ false → sys.new ≡ sys.old) }
    ensures lacks { OnErr result (ForSome (live_process sys.old pid) (λ p. can_write p.space at word_size ≡ true)) }
    ensures err { OnErr result (sys.new ≡ sys.old) }
{
    let done = store_status(&mut sys.processes.get_mut(pid).space, at, status)?;
    Ok(done)
}

/// Reaps a child of the process of an id, which is none of its own.
fn reap_child(sys: &mut Sys, pid: u32, child: u32)
    ensures { sys.new ≡ reaped_by pid child sys.old }
{
    if child != pid {
        reap(sys, child);
    }
}

/// A child that has ended is reaped, and its wait status stored before, unless the address is 0; where it cannot be
/// stored, or memory runs out, nothing is reaped.
#[tactic(auto, using(crate::proofs::WaitLemmas::giving))]
fn give(sys: &mut Sys, pid: u32, child: u32, status: u64, at: u64) -> Result<Performed, NoMemory>
    requires { IsSome (live_process sys.old pid) }
    ensures system { IfOk result
        (λ outcome.
        ForSome (live_process sys.old pid)
        (λ p. (id : ℕ) (l : TracedLwp)
        → sys.new ≡ after_effect pid p id l (wait_effect p.space (first_zombie child status) at) sys.old)) }
    ensures outcome { IfOk result
        (λ outcome.
        ForSome (live_process sys.old pid)
        (λ p. outcome ≡ outcome_of (wait_effect p.space (first_zombie child status) at))) }
    ensures memory { OnErr result
        (ForSome (live_process sys.old pid)
        (λ p. stores_bytes (wait_effect p.space (first_zombie child status) at) ≡ true)) }
    ensures err { OnErr result (sys.new ≡ sys.old) }
{
    if at != 0 && !store_in(sys, pid, at, status)? {
        return Ok(Performed::Done(Res::Error(Errno::Fault)));
    }
    reap_child(sys, pid, child);
    Ok(Performed::Done(Res::Value(u64::from(child))))
}

/// wait(3C) by the process of an id: ECHILD where it has no child; it sleeps while none has ended. Memory runs out only
/// where a status is stored, and the system then stays as it is.
#[tactic(auto, using(crate::proofs::WaitLemmas::waiting))]
pub fn wait(sys: &mut Sys, pid: u32, at: u64) -> Result<Performed, NoMemory>
    requires { IsSome (live_process sys.old pid) }
    ensures system { IfOk result
        (λ outcome.
        ForSome (live_process sys.old pid)
        (λ p. (id : ℕ) (l : TracedLwp)
        → sys.new ≡ after_effect pid p id l (wait_effect p.space (children_of sys.old pid) at) sys.old)) }
    ensures outcome { IfOk result
        (λ outcome.
        ForSome (live_process sys.old pid)
        (λ p. outcome ≡ outcome_of (wait_effect p.space (children_of sys.old pid) at))) }
    ensures memory { OnErr result
        (ForSome (live_process sys.old pid)
        (λ p. stores_bytes (wait_effect p.space (children_of sys.old pid) at) ≡ true)) }
    ensures err { OnErr result (sys.new ≡ sys.old) }
{
    match children(sys, pid) {
        Children::Nobody => Ok(Performed::Done(Res::Error(Errno::Child))),
        Children::Living => Ok(Performed::Sleep),
        Children::Zombie(child, status) => give(sys, pid, child, status, at),
    }
}

/// Whether wait(3C) would not sleep: there is no child, or one has ended.
#[tactic(auto, using(crate::proofs::WaitLemmas::overs))]
pub fn is_waited(sys: &Sys, pid: u32) -> bool
    ensures { (space : AnySpace) (at : ℕ) → result ≡ is_over (wait_effect space (children_of sys.now pid) at) }
{
    match children(sys, pid) {
        Children::Nobody => true,
        Children::Living => false,
        Children::Zombie(..) => true,
    }
}
