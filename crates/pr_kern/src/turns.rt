//! Which lwp that can have a turn comes next, and its turn, which the sets of processes that are looked at follow.
ghost use Rattle.std.specs.Prelude.{◌≡◌, ℕ, ◌+◌, ◌-◌, ◌^◌, false, true, Some, IfOk, IsOk, OnOk, OnErr};
ghost use Rattle.pr_model.specs.Lawful.{IsLawfulSystem};
ghost use Rattle.pr_model.specs.LwpTurns.{can_move, turn_of};
ghost use Rattle.pr_proc.specs.Counts.{AllUsedAtMost};
ghost use Rattle.pr_ready.specs.Queues.{AreReady, is_movable};
ghost use Rattle.pr_turn.specs.CallTurns.{may_take_memory};
ghost use Rattle.pr_ready.specs.Ready.{CoversMoves};
ghost use Rattle.pr_kern.specs.Orders.{next_movable};

use pr_model::Turned;
use pr_num::NoMemory;
use pr_pids::ProcessSet;
use pr_proc::{Lwp, Proc, Question, Sys};
use pr_ready::{
    FoundQuestion, Ready, after_instruction, after_turn, around_lwp, next_ready, renew,
};
use pr_turn::{movable, movable_in, run_instruction, turn};
use std::alloc::Global;

/// Whether an lwp of the system can have a turn.
#[derive(Drop)]
pub struct CanMove<'a>(pub &'a Sys);

impl Question for CanMove<'_> {
    ghost use Rattle.pr_model.specs.LwpTurns.{can_move};

    ghost answer = { λ question lwp. can_move question.0.now lwp.0 lwp.1 };

    fn ask(&self, pid: u32, lwp: u32) -> bool {
        movable(self.0, pid, lwp)
    }
}

impl FoundQuestion for CanMove<'_> {
    ghost system = { λ question. question.0.now };

    fn ask_found(&self, pid: u32, process: &Proc, id: u32, lwp: &Lwp) -> bool {
        movable_in(self.0, pid, process, id, lwp)
    }
}

/// The next lwp of a live process after another one, or the first of all, that can have a turn: the ids of its process
/// and its own.
#[tactic(auto, unfolding(crate::specs::Orders::next_movable))]
pub fn next_movable(
    sys: &Sys,
    movable: &ProcessSet,
    after: Option<(u32, u32)>,
) -> Option<(u32, u32)>
    requires lawful { IsLawfulSystem sys.now }
    requires covers { CoversMoves (is_movable sys.now) sys.now movable.now }
    ensures { result ≡ next_movable sys.now after }
{
    next_ready(sys, movable, after, &CanMove(sys))
}

/// The sets at the start have all processes that were made. Each is looked at here, so that it leaves those in which it
/// does not have to be: else each walk over those that sleep would come to it until it makes its first call.
pub fn first_ready(sys: &Sys) -> Ready
    requires { IsLawfulSystem sys.now }
    ensures { AreReady sys.now result }
{
    let mut ready = Ready::all(sys.made);
    for pid in 0..sys.made {
        renew(&mut ready, sys, pid, &CanMove(sys));
    }
    ready
}

/// A turn of any kind. What it may touch is noted before it.
fn any_turn(
    alloc: Global,
    sys: &mut Sys,
    ready: &mut Ready,
    pid: u32,
    lwp: u32,
) -> Result<Turned, NoMemory>
    requires lawful { IsLawfulSystem sys.old }
    requires movable { can_move sys.old pid lwp ≡ true }
    requires room { AllUsedAtMost (2 ^ 64 - 2) sys.old }
    requires looks { AreReady sys.old ready.old }
    ensures ok { IfOk result (λ turned. turn_of sys.old pid lwp ≡ Some (record { system = sys.new; turned = turned })) }
    ensures used { OnOk result ((n : ℕ) → AllUsedAtMost n sys.old → AllUsedAtMost (n + 1) sys.new) }
    ensures clock { OnOk result (sys.new.clock ≡ sys.old.clock) }
    ensures looks { OnOk result (AreReady sys.new ready.new) }
    ensures sure { may_take_memory sys.old pid lwp ≡ false → IsOk result }
    ensures err { OnErr result (sys.new ≡ sys.old) }
    ensures sets { OnErr result (ready.new ≡ ready.old) }
{
    let around = around_lwp(sys, pid, lwp);
    let turned = turn(alloc, sys, pid, lwp)?;
    after_turn(ready, sys, pid, around, turned.did, &CanMove(sys));
    Ok(turned)
}

/// Gives an lwp a turn, and the sets follow it. Most turns run an instruction: these touch nothing but their process,
/// and nothing has to be noted. Where memory runs out all stays as it is.
pub fn make_turn(
    alloc: Global,
    sys: &mut Sys,
    ready: &mut Ready,
    pid: u32,
    lwp: u32,
) -> Result<Turned, NoMemory>
    requires lawful { IsLawfulSystem sys.old }
    requires movable { can_move sys.old pid lwp ≡ true }
    requires room { AllUsedAtMost (2 ^ 64 - 2) sys.old }
    requires looks { AreReady sys.old ready.old }
    ensures ok { IfOk result (λ turned. turn_of sys.old pid lwp ≡ Some (record { system = sys.new; turned = turned })) }
    // a turn adds at most 1 to each count
    ensures used { OnOk result ((n : ℕ) → AllUsedAtMost n sys.old → AllUsedAtMost (n + 1) sys.new) }
    ensures clock { OnOk result (sys.new.clock ≡ sys.old.clock) }
    ensures looks { OnOk result (AreReady sys.new ready.new) }
    ensures sure { may_take_memory sys.old pid lwp ≡ false → IsOk result }
    ensures err { OnErr result (sys.new ≡ sys.old) }
    ensures sets { OnErr result (ready.new ≡ ready.old) }
{
    match run_instruction(sys, pid, lwp)? {
        None => any_turn(alloc, sys, ready, pid, lwp),
        Some(turned) => {
            after_instruction(ready, sys, pid, turned.did, &CanMove(sys));
            Ok(turned)
        }
    }
}
