//! The system calls that change how signals are met.
ghost use Rattle.std.specs.Prelude.{◌≡◌};
ghost use Rattle.pr_call.specs.Effects.{effect_meant};
ghost use Rattle.pr_model.specs.SignalCalls.{can_be_caught, sigaction_effect, sigmask_effect, sigreturn_effect};
ghost use Rattle.pr_model.specs.State.{TracedLwp};

use crate::requests::{Change, Effect};
use pr_model::Res;
use pr_num::limits::SIGNAL_COUNT;
use pr_num::{Errno, Sig, SigSet};
use pr_proc::{Lwp, disposition_of};

/// Whether the disposition of a signal can be changed: all but those of SIGKILL and SIGSTOP.
fn can_be_caught(signal: Sig) -> bool
    ensures { result ≡ can_be_caught signal }
{
    match signal {
        Sig::Kill | Sig::Stop => false,
        _ => true,
    }
}

/// sigaction(2) gives the old disposition.
#[tactic(auto, using(crate::proofs::SignalCallLemmas::sigaction_laws))]
pub fn sigaction(dispositions: &[u64; SIGNAL_COUNT], number: u64, disposition: u64) -> Effect
    ensures { (l : TracedLwp) → effect_meant l result ≡ sigaction_effect dispositions.now number disposition }
{
    match Sig::from_number(number) {
        None => Effect::Does(Res::Error(Errno::Inval), None),
        Some(signal) if can_be_caught(signal) => Effect::Does(
            Res::Value(disposition_of(dispositions, signal)),
            Some(Change::Disposition(signal, disposition)),
        ),
        Some(_) => Effect::Does(Res::Error(Errno::Inval), None),
    }
}

/// sigprocmask(2) gives the old held set. SIGKILL and SIGSTOP are never held.
#[tactic(auto, using(crate::proofs::SignalCallLemmas::sigmask_laws))]
pub fn sigmask(held: SigSet, word: u64) -> Effect
    ensures { (l : TracedLwp) → effect_meant l result ≡ sigmask_effect held word }
{
    match SigSet::from_word(word) {
        None => Effect::Does(Res::Error(Errno::Inval), None),
        Some(wanted) => Effect::Does(
            Res::Value(held.word()),
            Some(Change::Held(wanted.holdable())),
        ),
    }
}

/// The return from a handler: the registers and the held set of the last frame come back.
#[tactic(auto, using(crate::proofs::SignalCallLemmas::sigreturn_laws))]
pub fn sigreturn(lwp: &Lwp) -> Effect
    ensures { effect_meant lwp.now result ≡ sigreturn_effect lwp.now.frames }
{
    if lwp.frames.len() == 0 {
        return Effect::Does(Res::Error(Errno::Inval), None);
    }
    Effect::Does(Res::Value(0), Some(Change::Resumed))
}
