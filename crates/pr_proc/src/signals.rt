//! How signals are generated (signal.h(3HEAD)).
ghost use Rattle.std.specs.Prelude.{◌≡◌, IsSome, IfSome, IsTrue};
ghost use Rattle.pr_model.specs.Generation.{with_deletions};
ghost use Rattle.pr_model.specs.Machines.{traced};
ghost use Rattle.pr_model.specs.Signals.{generated};
ghost use Rattle.pr_model.specs.State.{live_process, with_process};
ghost use Rattle.pr_post.specs.Room.{has_room_for};

use crate::{Sys, end};
use pr_num::{Info, Sig};
use pr_post::post;

/// Generates a signal for a live process, or for the lwp of an id in it: SIGKILL ends the process at once, and any
/// other signal pends, for which there is room where it is one that queues. Takes no memory.
#[tactic(auto, using(pr_num::proofs::ByIdLaws::by_id_laws, crate::proofs::LifeLemmas::life_laws), unfolding(pr_model::specs::Signals::generated, pr_model::specs::State::with_process))]
pub fn generate(sys: &mut Sys, pid: u32, lwp: Option<u32>, s: Sig, info: Info)
    requires live { IsSome (live_process sys.old pid) }
    requires room { IfSome (live_process sys.old pid) (λ p. IsTrue (has_room_for lwp s (with_deletions s p))) }
    ensures { sys.new ≡ generated traced pid lwp s info sys.old }
{
    if let Sig::Kill = s {
        end(sys, pid, Sig::Kill.number());
        return;
    }
    post(sys.processes.get_mut(pid), lwp, s, info);
}
