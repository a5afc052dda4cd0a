ghost use Rattle.std.specs.Prelude.{◌≡◌, ◌↔◌, IsNone};
ghost use Rattle.pr_num.specs.Sets.{minus_word};
ghost use Rattle.pr_parts.specs.SignalRules.{takeable_signal, deleted_by, stop_signals, continue_signal, action_of};

use pr_num::{DefAct, Sig, SigSet};
use pr_parts::Action;

/// The signal that an lwp takes next, where `own` are its pending signals, `shared` those of its process, and `held`
/// those that it holds: the least of its own that is not held, else the least such signal of its process. `None`
/// exactly where all of them are held.
#[tactic(auto, unfolding(pr_parts::specs::SignalRules::takeable_signal, pr_num::specs::Signals::least_signal))]
pub fn takeable(own: SigSet, shared: SigSet, held: SigSet) -> Option<Sig>
    ensures value { result ≡ takeable_signal own shared held }
    ensures none { IsNone result ↔ ((minus_word own held ≡ 0) × (minus_word shared held ≡ 0)) }
{
    let own = own.minus(held).first();
    let shared = shared.minus(held).first();
    own.or(shared)
}

#[tactic(auto, unfolding(pr_parts::specs::SignalRules::stop_signals))]
fn stop_set() -> SigSet
    ensures { result ≡ stop_signals }
{
    SigSet::empty()
        .with(Sig::Stop)
        .with(Sig::Tstp)
        .with(Sig::Ttin)
        .with(Sig::Ttou)
}

#[tactic(auto, unfolding(pr_parts::specs::SignalRules::continue_signal))]
fn continue_set() -> SigSet
    ensures { result ≡ continue_signal }
{
    SigSet::empty().with(Sig::Cont)
}

/// The signals whose pending ones are deleted when `s` is generated: the stop signals where it is `SIGCONT`, `SIGCONT`
/// where it is a stop signal, and else none (signal.h(3HEAD)).
#[tactic(auto, unfolding(pr_parts::specs::SignalRules::deleted_by))]
pub fn deletes(s: Sig) -> SigSet
    ensures { result ≡ deleted_by s }
{
    match s {
        Sig::Cont => stop_set(),
        Sig::Stop | Sig::Tstp | Sig::Ttin | Sig::Ttou => continue_set(),
        _ => SigSet::empty(),
    }
}

/// What a signal does under a disposition: 0 stands for its default action, 1 for ignoring it, and any other number is
/// the address of the handler that catches it (sigaction(2)).
#[tactic(auto, unfolding(pr_parts::specs::SignalRules::action_of))]
pub fn action(s: Sig, disposition: u64) -> Action
    ensures { result ≡ action_of s disposition }
{
    if disposition > 1 {
        return Action::Catch(disposition);
    }
    if disposition == 1 {
        return Action::Ignore;
    }
    match s.def_act() {
        DefAct::Die => Action::Die,
        DefAct::Ignore => Action::Ignore,
        DefAct::Stop => Action::Stop,
    }
}
