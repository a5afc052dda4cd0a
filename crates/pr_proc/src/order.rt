//! The order in which lwps are looked at for a turn.
ghost use Rattle.std.specs.Prelude.{◌≡◌, find};
ghost use Rattle.pr_model.specs.Order.{is_after, live_lwps, lwps_among, lwps_in, next_lwp, pairs_of};
ghost use Rattle.pr_proc.specs.Orders.{asked_after, first_id, next_asked};

use crate::{Lwp, Proc, Processes, Sys};
use pr_model::is_after;
use pr_num::ById;

/// A question about an lwp, which is named by the ids of its process and its own.
pub trait Question {
    ghost use Rattle.std.specs.Prelude.{ℕ, Bool};

    ghost answer: { Self → ℕ × ℕ → Bool };

    fn ask(&self, pid: u32, lwp: u32) -> bool
        ensures { result ≡ answer self.now (pid, lwp) };
}

/// The question to which the answer is yes, whichever lwp it is.
struct Any;

impl Question for Any {
    ghost use Rattle.std.specs.Prelude.{true};

    ghost answer = { λ _ _. true };

    fn ask(&self, _pid: u32, _lwp: u32) -> bool {
        true
    }
}

#[tactic(auto, unfolding(crate::specs::Orders::asked_after))]
fn asked_after<Q: Question>(question: &Q, after: Option<(u32, u32)>, x: (u32, u32)) -> bool
    ensures { result ≡ asked_after (Q.answer question.now) after x }
{
    is_after(after, x) && question.ask(x.0, x.1)
}

/// The first of these lwps of a process that comes after another one and about which the answer is yes.
#[tactic(auto, using(crate::proofs::OrderLemmas::order_laws))]
pub fn first_among<Q: Question>(
    question: &Q,
    after: Option<(u32, u32)>,
    pid: u32,
    lwps: &ById<Lwp>,
) -> Option<(u32, u32)>
    ensures { result ≡ find (asked_after (Q.answer question.now) after) (pairs_of pid lwps.now) }
{
    for place in 0..lwps.len() {
        let (id, _) = lwps.at(place);
        if asked_after(question, after, (pid, id)) {
            return Some((pid, id));
        }
    }
    None
}

/// The same of all lwps of a process, which has none if it has ended.
#[tactic(auto, unfolding(pr_model::specs::Order::lwps_in))]
fn first_in<Q: Question>(
    question: &Q,
    after: Option<(u32, u32)>,
    pid: u32,
    process: &Proc,
) -> Option<(u32, u32)>
    ensures { result ≡ find (asked_after (Q.answer question.now) after) (lwps_in (pid, process.now)) }
{
    if process.ended.is_some() {
        return None;
    }
    first_among(question, after, pid, &process.lwps)
}

/// The least id of a process that can have an lwp after another one: that of the other one's process.
fn first_id(after: Option<(u32, u32)>) -> u64
    ensures { result ≡ first_id after }
{
    match after {
        Some((pid, _)) => pid as u64,
        None => 0,
    }
}

#[tactic(auto, using(crate::proofs::OrderLemmas::order_laws))]
fn next_among<Q: Question>(
    question: &Q,
    after: Option<(u32, u32)>,
    processes: &Processes,
) -> Option<(u32, u32)>
    ensures { result ≡ find (asked_after (Q.answer question.now) after) (lwps_among processes.now) }
{
    let mut low = first_id(after);
    while let Some((pid, process)) = processes.next_from(low) {
        if let Some(lwp) = first_in(question, after, pid, process) {
            return Some(lwp);
        }
        low = pid as u64 + 1;
    }
    None
}

/// The next lwp of a live process after another one, or the first of all, about which the answer to a question is yes:
/// the ids of its process and its own. Looks at no process before the other one's.
#[tactic(auto, unfolding(crate::specs::Orders::next_asked, pr_model::specs::Order::live_lwps))]
pub fn next_asked<Q: Question>(
    sys: &Sys,
    after: Option<(u32, u32)>,
    question: &Q,
) -> Option<(u32, u32)>
    ensures { result ≡ next_asked (Q.answer question.now) sys.now after }
{
    next_among(question, after, &sys.processes)
}

/// The next lwp of a live process after another one, or the first of all: the ids of its process and its own. Takes no
/// memory.
#[tactic(auto, using(crate::proofs::OrderLemmas::any_laws))]
pub fn next_lwp(sys: &Sys, after: Option<(u32, u32)>) -> Option<(u32, u32)>
    ensures { result ≡ next_lwp sys.now after }
{
    next_asked(sys, after, &Any)
}
