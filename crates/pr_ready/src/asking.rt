//! Which lwp comes next about which the answer to a question is yes, where only those of a set are asked.
ghost use Rattle.std.specs.Prelude.{◌≡◌, find, Some};
ghost use Rattle.std.specs.Option.{option_copied};
ghost use Rattle.pr_model.specs.Lawful.{IsLawfulSystem};
ghost use Rattle.pr_model.specs.Order.{pairs_of};
ghost use Rattle.pr_model.specs.State.{live_process, lwp_of};
ghost use Rattle.pr_proc.specs.Orders.{asked_after, next_asked};
ghost use Rattle.pr_ready.specs.Ready.{CoversMoves};
ghost use Rattle.pr_ready.specs.Walks.{first_of, first_pid};

use pr_model::is_after;
use pr_pids::ProcessSet;
use pr_proc::{Lwp, Proc, Question, Sys, live};

/// A question about the lwps of a system that can be asked of one that was found, with its live process: then neither
/// has to be looked up by its id.
pub trait FoundQuestion: Question {
    ghost use Rattle.pr_model.specs.State.{TracedSystem};

    ghost system: { Self → TracedSystem };

    fn ask_found(&self, pid: u32, process: &Proc, id: u32, lwp: &Lwp) -> bool
        requires live { live_process (system self.now) pid ≡ Some process.now }
        requires there { lwp_of process.now id ≡ Some lwp.now }
        ensures { result ≡ Self.answer self.now (pid, id) };
}

#[tactic(auto, unfolding(pr_proc::specs::Orders::asked_after))]
#[inline]
fn asked_after<Q: FoundQuestion>(
    question: &Q,
    after: Option<(u32, u32)>,
    pid: u32,
    process: &Proc,
    id: u32,
    lwp: &Lwp,
) -> bool
    requires live { live_process (Q.system question.now) pid ≡ Some process.now }
    requires there { lwp_of process.now id ≡ Some lwp.now }
    ensures { result ≡ asked_after (Q.answer question.now) after (pid, id) }
{
    is_after(after, (pid, id)) && question.ask_found(pid, process, id, lwp)
}

/// The first lwp of a live process that comes after another one and about which the answer is yes.
#[tactic(auto, using(pr_proc::proofs::OrderLemmas::order_laws))]
fn first_in<Q: FoundQuestion>(
    question: &Q,
    after: Option<(u32, u32)>,
    pid: u32,
    process: &Proc,
) -> Option<(u32, u32)>
    requires { live_process (Q.system question.now) pid ≡ Some process.now }
    ensures { result ≡ find (asked_after (Q.answer question.now) after) (pairs_of pid process.now.lwps) }
{
    process.lwps.ids_rise();
    for place in 0..process.lwps.len() {
        let (id, lwp) = process.lwps.at(place);
        if asked_after(question, after, pid, process, id, lwp) {
            return Some((pid, id));
        }
    }
    None
}

/// The same of a process that is live, if it is one.
fn first_of<Q: FoundQuestion>(
    question: &Q,
    after: Option<(u32, u32)>,
    pid: u32,
    process: Option<&Proc>,
) -> Option<(u32, u32)>
    requires { option_copied process ≡ live_process (Q.system question.now) pid }
    ensures { result ≡ first_of (Q.answer question.now) after pid (option_copied process.entry) }
{
    match process {
        None => None,
        Some(process) => first_in(question, after, pid, process),
    }
}

/// The first process that can have an lwp after another one: that of the other one.
fn first_pid(after: Option<(u32, u32)>) -> u32
    ensures { result ≡ first_pid after }
{
    match after {
        None => 0,
        Some((pid, _)) => pid,
    }
}

/// The next lwp of a live process after another one, or the first of all, about which the answer to a question is yes.
/// Asks of no process but those of a set, which has every process with such an lwp.
pub fn next_ready<Q: FoundQuestion>(
    sys: &Sys,
    movable: &ProcessSet,
    after: Option<(u32, u32)>,
    question: &Q,
) -> Option<(u32, u32)>
    requires asks { Q.system question.now ≡ sys.now }
    requires lawful { IsLawfulSystem sys.now }
    requires covers { CoversMoves (Q.answer question.now) sys.now movable.now }
    ensures { result ≡ next_asked (Q.answer question.now) sys.now after }
{
    let mut from = first_pid(after);
    while let Some(pid) = movable.next_from(from) {
        if let Some(found) = first_of(question, after, pid, live(sys, pid)) {
            return Some(found);
        }
        from = pid + 1;
    }
    None
}
