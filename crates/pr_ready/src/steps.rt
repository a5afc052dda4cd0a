//! How the sets follow each step.
ghost use Rattle.std.specs.Prelude.{◌≡◌, ◌<◌, ◌==◌, ◌||◌, ◌&&◌, true, false};
ghost use Rattle.pr_model.specs.declared.events.Did.TheVariants.{Ran};
ghost use Rattle.pr_num.specs.Limits.{process_limit};
ghost use Rattle.pr_ready.specs.Around.{is_around};
ghost use Rattle.pr_ready.specs.Ready.{Covers, CoversEach, Grows, IsWoken};
ghost use Rattle.pr_ready.specs.Steps.{KeepsUp};
ghost use Rattle.pr_ready_laws.specs.Reach.{changes_files, itself, reach_of, reach_of_call, reaches_around};

use crate::around::Around;
use crate::looks::{look_around, renew};
use crate::ready::Ready;
use crate::ticks::wake_due;
use crate::wakes::wake;
use pr_model::{Did, How, Res};
use pr_num::Sysno;
use pr_proc::{Question, Sys};

/// Whether a system call that is over reaches the processes around its own.
fn call_reaches_around(call: Sysno) -> bool
    ensures { result ≡ reaches_around (reach_of_call call) }
{
    matches!(
        call,
        Sysno::Fork | Sysno::Vfork | Sysno::Exec | Sysno::Kill | Sysno::Sigqueue
    )
}

/// Whether files may differ after a system call that is over.
fn call_changes_files(call: Sysno) -> bool
    ensures { result ≡ changes_files (reach_of_call call) }
{
    match call {
        Sysno::Read
        | Sysno::Write
        | Sysno::Open
        | Sysno::Close
        | Sysno::Pipe
        | Sysno::Dup
        | Sysno::Lseek => true,
        _ => call_reaches_around(call),
    }
}

/// Whether a turn that did this reaches the processes around its own.
#[tactic(auto, unfolding(pr_ready_laws::specs::Reach::reach_of))]
fn reaches_around(did: Did) -> bool
    ensures { result ≡ reaches_around (reach_of did) }
{
    match did {
        Did::Made(_, Res::Ended) | Did::Woke(_, Res::Ended) | Did::Acted(_, How::Died) => true,
        Did::Made(call, _) | Did::Woke(call, _) => call_reaches_around(call),
        _ => false,
    }
}

/// Whether files may differ after a turn that did this.
#[tactic(auto, unfolding(pr_ready_laws::specs::Reach::reach_of))]
fn changes_files(did: Did) -> bool
    ensures { result ≡ changes_files (reach_of did) }
{
    match did {
        Did::Made(_, Res::Ended) | Did::Woke(_, Res::Ended) | Did::Acted(_, How::Died) => true,
        Did::Made(call, _) | Did::Woke(call, _) => call_changes_files(call),
        _ => false,
    }
}

/// Looks at all processes that were noted around one, where that is wanted.
fn look_around_if<Q: Question>(
    ready: &mut Ready,
    sys: &Sys,
    wanted: bool,
    around: Around,
    question: &Q,
)
    ensures covers { wanted ≡ true → CoversEach (is_around around) (Q.answer question.now) sys.now ready.new }
    ensures grows { Grows ready.old ready.new }
{
    if wanted {
        look_around(ready, sys, around, question);
    }
}

/// Looks at those that sleep at pipes, where that is wanted.
fn wake_at_pipes_if<Q: Question>(ready: &mut Ready, sys: &Sys, wanted: bool, question: &Q)
    ensures woken { wanted ≡ true → IsWoken (Q.answer question.now) sys.now ready.old.at_pipes ready.new.movable }
    ensures grows { Grows ready.old ready.new }
{
    if wanted {
        wake(&mut ready.movable, &ready.at_pipes, sys, question);
    }
}

/// After a turn of an lwp of a process: that process is looked at anew, and so is what the turn may have touched.
pub fn after_turn<Q: Question>(
    ready: &mut Ready,
    sys: &Sys,
    pid: u32,
    around: Around,
    did: Did,
    question: &Q,
)
    ensures { KeepsUp (λ other. (pid == other) || (reaches_around (reach_of did) && is_around around other))
        (changes_files (reach_of did)) false (Q.answer question.now) sys.now ready.old ready.new }
{
    renew(ready, sys, pid, question);
    look_around_if(ready, sys, reaches_around(did), around, question);
    wake_at_pipes_if(ready, sys, changes_files(did), question);
}

/// After a turn of an lwp of a process that reaches no further than that process, as one that runs an instruction: the
/// process is looked at anew. Where the lwp only ran, each set has the process as it has to, and nothing is looked at.
pub fn after_instruction<Q: Question>(
    ready: &mut Ready,
    sys: &Sys,
    pid: u32,
    did: Did,
    question: &Q,
)
    requires reach { reach_of did ≡ itself }
    requires ran { did ≡ Ran → pid < process_limit → Covers (Q.answer question.now) sys.now ready.old pid }
    ensures { (around : Around)
        → KeepsUp (λ other. (pid == other) || (reaches_around (reach_of did) && is_around around other))
        (changes_files (reach_of did)) false (Q.answer question.now) sys.now ready.old ready.new }
{
    match did {
        Did::Ran => {}
        _ => renew(ready, sys, pid, question),
    }
}

/// After a call of a controller: what it may have touched is looked at. `files`: files may differ.
pub fn after_call<Q: Question>(
    ready: &mut Ready,
    sys: &Sys,
    around: Around,
    files: bool,
    question: &Q,
)
    ensures { KeepsUp (is_around around) files false (Q.answer question.now) sys.now ready.old ready.new }
{
    look_around(ready, sys, around, question);
    wake_at_pipes_if(ready, sys, files, question);
}

/// After a tick of the clock: those that sleep in sleep are looked at, where it has come to a moment of theirs.
pub fn after_tick<Q: Question>(ready: &mut Ready, sys: &Sys, question: &Q)
    ensures { KeepsUp (λ other. false) false true (Q.answer question.now) sys.now ready.old ready.new }
{
    wake_due(&mut ready.movable, &mut ready.moments, sys, question);
}
