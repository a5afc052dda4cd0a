//! How a signal is posted (signal.h(3HEAD)).
ghost use Rattle.std.specs.Prelude.{◌≡◌, IsTrue};
ghost use Rattle.pr_num.specs.ById.{change_under, map_each};
ghost use Rattle.pr_model.specs.Generation.{lwp_with_pending, lwp_without_pending, signalled, with_deletions, with_pending, without_job_stop, without_pending};
ghost use Rattle.pr_model.specs.Signals.{disposition_of};
ghost use Rattle.pr_parts.specs.PendingSignals.{has_room};
ghost use Rattle.pr_post.specs.Room.{has_room_for, has_room_in};

use crate::{Lwp, Proc};
use pr_num::limits::SIGNAL_COUNT;
use pr_num::{ById, Info, Sig, SigSet};
use pr_sig::deletes;

/// What a process does with a signal.
#[tactic(auto, unfolding(pr_model::specs::Signals::disposition_of))]
pub fn disposition_of(dispositions: &[u64; SIGNAL_COUNT], signal: Sig) -> u64
    ensures { result ≡ disposition_of dispositions.now signal }
{
    dispositions[signal.number() as usize - 1]
}

/// Signals pend for an lwp no more.
#[tactic(auto, unfolding(pr_model::specs::Generation::lwp_without_pending))]
fn delete_of(lwp: &mut Lwp, signals: SigSet)
    ensures { lwp.new ≡ lwp_without_pending signals lwp.old }
{
    lwp.pending.delete(signals);
}

#[tactic(auto, using(pr_num::proofs::ByIdLaws::by_id_laws))]
fn delete_of_each(lwps: &mut ById<Lwp>, signals: SigSet)
    ensures { lwps.new ≡ map_each (lwp_without_pending signals) lwps.old }
{
    for place in 0..lwps.len() {
        delete_of(lwps.at_mut(place), signals);
    }
}

/// Signals pend no more, neither for the process nor for an lwp of it.
#[tactic(auto, unfolding(pr_model::specs::Generation::without_pending))]
fn delete(process: &mut Proc, signals: SigSet)
    ensures { process.new ≡ without_pending signals process.old }
{
    process.pending.delete(signals);
    delete_of_each(&mut process.lwps, signals);
}

/// SIGCONT ends a job stop.
#[tactic(auto, unfolding(pr_model::specs::Generation::without_job_stop))]
fn end_job_stop(process: &mut Proc, s: Sig)
    ensures { process.new ≡ without_job_stop s process.old }
{
    if let Sig::Cont = s {
        process.job_stop = None;
    }
}

/// A stop signal deletes a pending SIGCONT; SIGCONT deletes pending stop signals, and ends a job stop.
#[tactic(auto, unfolding(pr_model::specs::Generation::with_deletions))]
fn delete_by(process: &mut Proc, s: Sig)
    ensures { process.new ≡ with_deletions s process.old }
{
    let deleted = deletes(s);
    if deleted.is_empty() {
        return;
    }
    delete(process, deleted);
    end_job_stop(process, s);
}

#[tactic(auto, unfolding(pr_model::specs::Generation::lwp_with_pending))]
fn add_to(lwp: &mut Lwp, s: Sig, info: Info)
    requires { IsTrue (has_room s lwp.old.pending) }
    ensures { lwp.new ≡ lwp_with_pending s info lwp.old }
{
    lwp.pending.add(s, info);
}

#[tactic(auto, using(pr_num::proofs::ByIdLaws::by_id_laws), unfolding(crate::specs::Room::has_room_in))]
fn add_under(lwps: &mut ById<Lwp>, id: u32, s: Sig, info: Info)
    requires { IsTrue (has_room_in id s lwps.old) }
    ensures { lwps.new ≡ change_under id (lwp_with_pending s info) lwps.old }
{
    if let Some(lwp) = lwps.find_mut(id) {
        add_to(lwp, s, info);
    }
}

/// A signal pends for a process, or for the lwp of an id in it.
#[tactic(auto, unfolding(pr_model::specs::Generation::with_pending, crate::specs::Room::has_room_for))]
fn add(process: &mut Proc, lwp: Option<u32>, s: Sig, info: Info)
    requires { IsTrue (has_room_for lwp s process.old) }
    ensures { process.new ≡ with_pending lwp s info process.old }
{
    match lwp {
        None => process.pending.add(s, info),
        Some(id) => add_under(&mut process.lwps, id, s, info),
    }
}

/// A signal is posted to a process, or to the lwp of an id in it, for which there is room where it is one that queues. It
/// pends from then on, also where it is ignored, once it has deleted what it deletes. A zombie is posted nothing.
#[tactic(auto, unfolding(pr_model::specs::Generation::signalled))]
pub fn post(process: &mut Proc, lwp: Option<u32>, s: Sig, info: Info)
    requires { IsTrue (has_room_for lwp s (with_deletions s process.old)) }
    ensures { process.new ≡ signalled lwp s info process.old }
{
    if process.ended.is_none() {
        delete_by(process, s);
        add(process, lwp, s, info);
    }
}
