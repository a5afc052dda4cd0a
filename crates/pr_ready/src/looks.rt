//! How processes that a step touched are looked at again.
ghost use Rattle.std.specs.Prelude.{◌≡◌, ◌<◌, ◌==◌, ℕ, true, false, Some};
ghost use Rattle.std.specs.List.{list_any};
ghost use Rattle.std.specs.Option.{option_copied};
ghost use Rattle.pr_model.specs.Lives.{is_id};
ghost use Rattle.pr_model.specs.Running.{is_asleep};
ghost use Rattle.pr_model.specs.State.{live_process};
ghost use Rattle.pr_num.specs.Limits.{process_limit};
ghost use Rattle.pr_ready.specs.Around.{is_around, is_in_kin, is_in_kin_of};
ghost use Rattle.pr_ready.specs.Ready.{Covers, CoversEach, Grows, GrowsBut, is_asked, is_at_pipe, is_dozing, some_answer_of, some_at_pipe, some_dozing, some_woken};
ghost use Rattle.pr_ready_laws.specs.Left.{dozes, sleeps_at_pipe};

use crate::around::{Around, Kin};
use crate::moments::note_next;
use crate::ready::{Ready, put_if, take_out};
use pr_model::Phase;
use pr_num::Sysno;
use pr_proc::{Lwp, Proc, Question, Sys, live};

fn some_answer<Q: Question>(question: &Q, pid: u32, lwps: &[(u32, Lwp)]) -> bool
    ensures { result ≡ list_any (is_asked (Q.answer question.now) pid) lwps.now }
{
    lwps.iter().any(|entry| question.ask(pid, entry.0))
}

/// Whether the answer about some lwp of a live process is yes.
pub fn some_answer_of<Q: Question>(question: &Q, pid: u32, process: Option<&Proc>) -> bool
    ensures { result ≡ some_answer_of (Q.answer question.now) pid (option_copied process.entry) }
{
    match process {
        None => false,
        Some(process) => some_answer(question, pid, process.lwps.as_slice()),
    }
}

fn sleeps_at_pipe(phase: Phase) -> bool
    ensures { result ≡ sleeps_at_pipe phase }
{
    match phase {
        Phase::Asleep { call, .. } => matches!(call, Sysno::Read | Sysno::Write),
        _ => false,
    }
}

fn some_at_pipe(lwps: &[(u32, Lwp)]) -> bool
    ensures { result ≡ list_any is_at_pipe lwps.now }
{
    lwps.iter().any(|entry| sleeps_at_pipe(entry.1.phase))
}

fn dozes(phase: Phase) -> bool
    ensures { result ≡ dozes phase }
{
    match phase {
        Phase::Asleep { call, .. } => matches!(call, Sysno::Sleep),
        _ => false,
    }
}

fn some_dozing(lwps: &[(u32, Lwp)]) -> bool
    ensures { result ≡ list_any is_dozing lwps.now }
{
    lwps.iter().any(|entry| dozes(entry.1.phase))
}

/// Whether an lwp is asleep in no call, and nobody stopped or suspended it.
fn is_up(lwp: &Lwp) -> bool
    ensures { result ≡ true → is_asleep lwp.now.phase ≡ false }
{
    match lwp.phase {
        Phase::Asleep { .. } => false,
        _ => lwp.control.stop.is_none() && !lwp.suspended,
    }
}

/// Whether a process has one lwp, which is not asleep, and nothing holds it back. Such an lwp sleeps nowhere, and of
/// whether it can move nobody has to be asked: that a process is looked at does no harm.
#[tactic(auto, using(crate::proofs::LookLemmas::alone_laws))]
fn moves_alone(process: &Proc) -> bool
    ensures waits { result ≡ true → some_at_pipe process.now ≡ false }
    ensures dozes { result ≡ true → some_dozing process.now ≡ false }
    ensures wakes { (from to : ℕ) → result ≡ true → some_woken from to process.now ≡ false }
{
    if process.lwps.len() != 1 {
        return false;
    }
    let (_, lwp) = process.lwps.at(0);
    process.job_stop.is_none() && process.borrower.is_none() && is_up(lwp)
}

/// Looks at each lwp of a live process.
#[inline(never)]
fn look_at_each<Q: Question>(ready: &mut Ready, sys: &Sys, pid: u32, process: &Proc, question: &Q)
    requires { live_process sys.now pid ≡ Some process.now }
    ensures covers { pid < process_limit → Covers (Q.answer question.now) sys.now ready.new pid }
    ensures grows { Grows ready.old ready.new }
{
    let lwps = process.lwps.as_slice();
    put_if(&mut ready.movable, pid, some_answer(question, pid, lwps));
    put_if(&mut ready.at_pipes, pid, some_at_pipe(lwps));
    put_if(&mut ready.dozing, pid, some_dozing(lwps));
    note_next(&mut ready.moments, sys.clock, pid, lwps);
}

/// Looks at a process: it comes into each set in which it has to be, and leaves none.
#[inline]
pub fn look<Q: Question>(ready: &mut Ready, sys: &Sys, pid: u32, question: &Q)
    ensures covers { pid < process_limit → Covers (Q.answer question.now) sys.now ready.new pid }
    ensures grows { Grows ready.old ready.new }
{
    let Some(process) = live(sys, pid) else {
        return;
    };
    if moves_alone(process) {
        put_if(&mut ready.movable, pid, true);
        return;
    }
    look_at_each(ready, sys, pid, process, question);
}

/// The process of an id leaves every set. The moments stay: the clock does not know whose they are.
fn forget(ready: &mut Ready, pid: u32)
    ensures { GrowsBut pid ready.old ready.new }
{
    take_out(&mut ready.movable, pid);
    take_out(&mut ready.at_pipes, pid);
    take_out(&mut ready.dozing, pid);
}

/// Looks at a process anew: it leaves each set in which it does not have to be.
pub fn renew<Q: Question>(ready: &mut Ready, sys: &Sys, pid: u32, question: &Q)
    ensures covers { pid < process_limit → Covers (Q.answer question.now) sys.now ready.new pid }
    ensures grows { GrowsBut pid ready.old ready.new }
{
    forget(ready, pid);
    look(ready, sys, pid, question);
}

/// Looks at the process of an id, if there is one.
fn look_if<Q: Question>(ready: &mut Ready, sys: &Sys, pid: Option<u32>, question: &Q)
    ensures covers { CoversEach (λ other. is_id other pid) (Q.answer question.now) sys.now ready.new }
    ensures grows { Grows ready.old ready.new }
{
    if let Some(pid) = pid {
        look(ready, sys, pid, question);
    }
}

/// The same of an id that a program names by a whole word.
fn look_if_small<Q: Question>(ready: &mut Ready, sys: &Sys, pid: Option<u64>, question: &Q)
    ensures covers { CoversEach (λ other. is_id other pid) (Q.answer question.now) sys.now ready.new }
    ensures grows { Grows ready.old ready.new }
{
    if let Some(pid) = pid {
        if let Ok(pid) = u32::try_from(pid) {
            look(ready, sys, pid, question);
        }
    }
}

fn look_at_kin<Q: Question>(ready: &mut Ready, sys: &Sys, kin: Kin, question: &Q)
    ensures covers { CoversEach (is_in_kin kin) (Q.answer question.now) sys.now ready.new }
    ensures grows { Grows ready.old ready.new }
{
    look(ready, sys, kin.parent, question);
    look_if(ready, sys, kin.lender, question);
    look_if(ready, sys, kin.borrower, question);
}

fn look_at_kin_of<Q: Question>(ready: &mut Ready, sys: &Sys, kin: Option<Kin>, question: &Q)
    ensures covers { CoversEach (is_in_kin_of kin) (Q.answer question.now) sys.now ready.new }
    ensures grows { Grows ready.old ready.new }
{
    if let Some(kin) = kin {
        look_at_kin(ready, sys, kin, question);
    }
}

/// Looks at all processes that were noted around one.
#[tactic(auto, unfolding(crate::specs::Around::is_around))]
pub fn look_around<Q: Question>(ready: &mut Ready, sys: &Sys, around: Around, question: &Q)
    ensures covers { CoversEach (is_around around) (Q.answer question.now) sys.now ready.new }
    ensures grows { Grows ready.old ready.new }
{
    look_if(ready, sys, around.made, question);
    look_at_kin_of(ready, sys, around.kin, question);
    look_if_small(ready, sys, around.target, question);
    look_at_kin_of(ready, sys, around.target_kin, question);
}
