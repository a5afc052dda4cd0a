//! What plain calls make of the system.
ghost use Rattle.std.specs.Prelude.{◌≡◌, IsSome, true, is_some, length};
ghost use Rattle.std.specs.Option.{ForSome};
ghost use Rattle.pr_num.specs.ById.{change_under, under};
ghost use Rattle.pr_call.specs.Effects.{after_effect, effect_meant, lwp_changed, outcome_of, process_changed, resumed_last};
ghost use Rattle.pr_model.specs.Changes.{with_disposition_of, with_held};
ghost use Rattle.pr_model.specs.State.{live_process, lwp_of, with_process};

use crate::requests::{Change, Effect, Performed};
use pr_num::{ById, Sig};
use pr_proc::{Lwp, Proc, Sys, end, end_lwp, suspend};

/// An lwp goes back to what its last handler interrupted.
#[tactic(auto, unfolding(crate::specs::Effects::resumed_last, pr_model::specs::Changes::resumed))]
fn resume(lwp: &mut Lwp)
    ensures { lwp.new ≡ resumed_last lwp.old }
{
    if let Some(frame) = lwp.frames.pop() {
        let regs = frame.regs;
        lwp.regs = regs;
        lwp.held = frame.held;
    }
}

/// A change of the lwp that makes the call.
#[tactic(auto, unfolding(crate::specs::Effects::lwp_changed, pr_model::specs::Changes::with_held))]
fn change_lwp(lwp: &mut Lwp, change: Change)
    ensures { lwp.new ≡ lwp_changed change lwp.old }
{
    match change {
        Change::Held(held) => lwp.held = held,
        Change::Resumed => resume(lwp),
        Change::Disposition(..) => {}
        Change::Suspended(..) => {}
    }
}

#[tactic(auto, using(pr_num::proofs::ByIdLaws::by_id_laws))]
fn change_lwp_under(lwps: &mut ById<Lwp>, id: u32, change: Change)
    ensures { lwps.new ≡ change_under id (lwp_changed change) lwps.old }
{
    if let Some(lwp) = lwps.find_mut(id) {
        change_lwp(lwp, change);
    }
}

/// A process has another disposition of a signal.
#[tactic(auto, unfolding(pr_model::specs::Changes::with_disposition_of))]
fn set_disposition(process: &mut Proc, signal: Sig, disposition: u64)
    ensures { process.new ≡ with_disposition_of signal disposition process.old }
{
    process.dispositions[signal.number() as usize - 1] = disposition;
}

/// A change of the process of the lwp that makes the call.
#[tactic(auto, unfolding(crate::specs::Effects::process_changed, pr_model::specs::State::with_lwp))]
fn change_process(process: &mut Proc, id: u32, change: Change)
    ensures { process.new ≡ process_changed id change process.old }
{
    match change {
        Change::Disposition(signal, disposition) => set_disposition(process, signal, disposition),
        Change::Held(_) => change_lwp_under(&mut process.lwps, id, change),
        Change::Resumed => change_lwp_under(&mut process.lwps, id, change),
        Change::Suspended(other, suspended) => suspend(process, other, suspended),
    }
}

#[tactic(auto, using(pr_num::proofs::ByIdLaws::by_id_laws), unfolding(pr_model::specs::State::with_process))]
fn change_under(sys: &mut Sys, pid: u32, id: u32, change: Change)
    requires { IsSome (under pid sys.old.processes) }
    ensures { sys.new ≡ with_process pid (process_changed id change) sys.old }
{
    change_process(sys.processes.get_mut(pid), id, change);
}

/// What the effect of a call makes of the system, and what comes of the call. Takes no memory.
#[tactic(auto, using(crate::proofs::MakingLemmas::making_laws, pr_proc::proofs::LifeLemmas::life_laws))]
pub fn make(sys: &mut Sys, pid: u32, id: u32, effect: Effect) -> Performed
    requires { IsSome (live_process sys.old pid) }
    ensures system { ForSome (live_process sys.old pid)
        (λ p. ForSome (lwp_of p id) (λ l. sys.new ≡ after_effect pid p id l (effect_meant l effect) sys.old)) }
    ensures outcome { ForSome (live_process sys.old pid)
        (λ p. ForSome (lwp_of p id) (λ l. result ≡ outcome_of (effect_meant l effect))) }
{
    match effect {
        Effect::Does(answer, None) => Performed::Done(answer),
        Effect::Does(answer, Some(change)) => {
            change_under(sys, pid, id, change);
            Performed::Done(answer)
        }
        Effect::Sleeps => Performed::Sleep,
        Effect::Ends(status) => {
            end(sys, pid, status);
            Performed::Ended
        }
        Effect::EndsLwp => {
            end_lwp(sys, pid, id);
            Performed::Ended
        }
    }
}
