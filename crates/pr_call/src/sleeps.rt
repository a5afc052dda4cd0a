//! The system calls that may sleep, and when one is ready.
ghost use Rattle.std.specs.Prelude.{◌≡◌};
ghost use Rattle.pr_call.specs.Effects.{effect_meant};
ghost use Rattle.pr_model.specs.Changes.{is_over};
ghost use Rattle.pr_model.specs.LwpTurns.{is_ready};
ghost use Rattle.pr_model.specs.ProcessCalls.{sleep_effect};
ghost use Rattle.pr_model.specs.State.{TracedLwp};

use crate::requests::{Effect, Request};
use crate::transfers::{is_read, is_written};
use crate::waits::is_waited;
use pr_model::Res;
use pr_num::limits::SLEEP_LIMIT;
use pr_num::{Errno, Sysno};
use pr_proc::{Proc, Sys};

/// sleep(3C) is over once so many milliseconds have passed since it began.
#[tactic(auto, unfolding(pr_model::specs::ProcessCalls::sleep_effect))]
pub fn sleep(clock: u64, since: u64, time: u64) -> Effect
    ensures { (l : TracedLwp) → effect_meant l result ≡ sleep_effect clock since time }
{
    if time > SLEEP_LIMIT {
        return Effect::Does(Res::Error(Errno::Inval), None);
    }
    if time <= clock && since <= clock - time {
        return Effect::Does(Res::Value(0), None);
    }
    Effect::Sleeps
}

/// Whether a sleep is over, as the call would find.
#[tactic(auto, unfolding(pr_model::specs::ProcessCalls::sleep_effect))]
fn is_slept(clock: u64, since: u64, time: u64) -> bool
    ensures { result ≡ is_over (sleep_effect clock since time) }
{
    if time > SLEEP_LIMIT {
        return true;
    }
    if time <= clock && since <= clock - time {
        return true;
    }
    false
}

/// Whether a call in which an lwp of a process sleeps is ready: it would not sleep any more. Changes nothing.
#[tactic(auto, unfolding(pr_model::specs::LwpTurns::is_ready, pr_model::specs::CallEffects::call_effect))]
pub fn is_ready(sys: &Sys, process: &Proc, request: &Request) -> bool
    ensures { (l : TracedLwp)
        → result
        ≡ is_ready sys.now request.now.pid process.now request.now.lwp l request.now.since request.now.call
        request.now.args }
{
    let args = request.args;
    match request.call {
        Sysno::Pause => false,
        Sysno::Sleep => is_slept(sys.clock, request.since, args[0]),
        Sysno::Wait => is_waited(sys, request.pid),
        Sysno::Read => is_read(
            &sys.files,
            &process.fds,
            &process.space,
            args[0],
            args[1],
            args[2],
        ),
        Sysno::Write => is_written(
            &sys.files,
            &process.fds,
            &process.space,
            args[0],
            args[1],
            args[2],
        ),
        _ => true,
    }
}
