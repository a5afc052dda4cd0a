//! What lies under the lock of a run on several threads.
ghost use Rattle.std.specs.Prelude.{◌≡◌, ◌+◌, ◌<◌, true, None, IsSome, IfOk, OnOk, OnErr, length};
ghost use Rattle.pr_api.specs.Views.{IsLawful};
ghost use Rattle.pr_run.specs.ManyRuns.{AsksMade, IsTurnOf, MakesTurn, is_over};
ghost use Rattle.pr_world.specs.Runs.{CameFrom};
ghost use Rattle.pr_world.specs.Worlds.{WorldState, seen};

use crate::workers::{Progress, Worker};
use pr_api::Kernel;
use pr_lock::Logged;
use pr_model::Entry;
use pr_num::NoMemory;
use pr_world::World;
use std::collections::LinkedList;

/// An entry of a history, with those that stand before it. It exists in proofs alone: no value of this type is made.
pub struct LoggedEntry {
    pub before: LinkedList<Entry>,
    pub entry: Entry,
}

/// A world that workers take in turn, and the mark of a worker that was refused memory: each worker that finds it ends.
#[derive(Drop)]
pub struct SharedWorld<Q> {
    pub world: World<Q>,
    pub refusal: Option<NoMemory>,
}

impl<Q: Kernel> Logged for SharedWorld<Q> {
    ghost use Rattle.pr_run.specs.Logs.{log_of};
    ghost use Rattle.pr_run.specs.ManyRuns.{is_over};
    ghost use Rattle.pr_world.specs.Runs.{CameFrom};
    ghost use Rattle.pr_world.specs.Worlds.{seen};

    type Item = LoggedEntry;

    ghost entries = { λ shared. log_of (Q.view shared.world.kernel).history };

    ghost over = { is_over Q.view };

    ghost comes = { λ shared first. CameFrom (seen Q.view first.world) (seen Q.view shared.world) };

    #[tactic(auto, using(crate::proofs::LogLemmas::counts))]
    fn count(&self) -> u64 {
        u64::from(self.world.kernel().entries())
    }
}

impl<Q: Kernel> SharedWorld<Q> {
    /// One turn of a worker, with at most one move. `last` is the lwp that the worker moved last. Where it is refused
    /// memory, it leaves the mark, and where it finds that, it is refused too.
    pub fn take_turn(
        &mut self,
        worker: Worker,
        last: &mut Option<(u32, u32)>,
    ) -> Result<Progress, NoMemory>
        requires { worker.number < worker.processors + length self.old.world.controllers }
        ensures lawful { IsLawful (Q.view self.old.world.kernel) }
        ensures turn { IsTurnOf worker.processors worker.number last.old last.new
            (seen Q.view self.old.world) (seen Q.view self.new.world) }
        ensures came { (first : WorldState) → CameFrom first (seen Q.view self.old.world)
            → CameFrom first (seen Q.view self.new.world) }
        ensures made { IfOk result (λ progress. MakesTurn worker.processors worker.number last.old last.new
            (seen Q.view self.old.world) (seen Q.view self.new.world) progress) }
        ensures asked { IfOk result (λ progress. AsksMade progress self.new.world.made) }
        ensures unmarked { OnOk result (self.new.refusal ≡ None) }
        ensures refused { OnErr result (IsSome self.new.refusal
            × (seen Q.view self.new.world ≡ seen Q.view self.old.world) × (last.new ≡ last.old)) }
        ensures stays { is_over Q.view self.old ≡ true → is_over Q.view self.new ≡ true }
        ensures marked { IsSome self.old.refusal → self.new ≡ self.old }
    {
        if let Some(refusal) = self.refusal {
            return Err(refusal);
        }
        match worker.make_turn(&mut self.world, last) {
            Ok(progress) => Ok(progress),
            Err(refusal) => {
                self.refusal = Some(refusal);
                Err(refusal)
            }
        }
    }
}
