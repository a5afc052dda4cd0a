//! kill(2) and sigqueue(3C).
ghost use Rattle.std.specs.Prelude.{◌≡◌, ℕ, IsSome};
ghost use Rattle.std.specs.Option.{ForSome};
ghost use Rattle.pr_call.specs.Effects.{after_effect, outcome_of};
ghost use Rattle.pr_model.specs.Readers.{life_of};
ghost use Rattle.pr_model.specs.SignalCalls.{send_effect, sends, sent_effect};
ghost use Rattle.pr_model.specs.Signals.{is_kill};
ghost use Rattle.pr_model.specs.State.{TracedLwp, live_process};
ghost use Rattle.pr_proc.specs.Sendings.{IsSent};

use crate::requests::Performed;
use pr_model::Res;
use pr_num::{Info, Sig};
use pr_proc::{Sending, Sys, end, generate, sending_of};

/// Whether a signal is SIGKILL.
fn is_kill(signal: Sig) -> bool
    ensures { result ≡ is_kill signal }
{
    match signal {
        Sig::Kill => true,
        _ => false,
    }
}

/// A signal is sent by a process; SIGKILL to itself ends it.
#[tactic(auto, using(crate::proofs::SendingLemmas::sent_laws))]
fn deliver(sys: &mut Sys, own: u32, id: u32, signal: Sig, info: Info) -> Performed
    requires live { IsSome (live_process sys.old own) }
    requires sent { IsSent sys.old id id signal }
    ensures system { ForSome (live_process sys.old own)
        (λ p. (caller : ℕ) (l : TracedLwp)
        → sys.new ≡ after_effect own p caller l (sent_effect own id info (sends signal)) sys.old) }
    ensures outcome { result ≡ outcome_of (sent_effect own id info (sends signal)) }
{
    if is_kill(signal) && id == own {
        end(sys, own, signal.number());
        return Performed::Ended;
    }
    generate(sys, id, None, signal, info);
    Performed::Done(Res::Value(0))
}

/// kill(2) and sigqueue(3C): a process sends a signal of a number to the process that another number names. Takes no
/// memory.
#[tactic(auto, using(crate::proofs::SendingLemmas::send_laws))]
pub fn send(sys: &mut Sys, own: u32, target: u64, number: u64, info: Info) -> Performed
    requires { IsSome (live_process sys.old own) }
    ensures system { ForSome (live_process sys.old own)
        (λ p. (caller : ℕ) (l : TracedLwp)
        → sys.new ≡ after_effect own p caller l (send_effect own target number info (life_of sys.old target)) sys.old) }
    ensures outcome { result ≡ outcome_of (send_effect own target number info (life_of sys.old target)) }
{
    match sending_of(sys, target, number) {
        Sending::Refused(error) => Performed::Done(Res::Error(error)),
        Sending::Nothing => Performed::Done(Res::Value(0)),
        Sending::Sent(id, signal) => deliver(sys, own, id, signal, info),
    }
}
