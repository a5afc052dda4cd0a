//! The system calls of which all is known before anything changes, a row a call.
ghost use Rattle.std.specs.Prelude.{◌≡◌, true};
ghost use Rattle.pr_call.specs.Effects.{effect_meant, effect_of, is_plain};

use crate::lwps::{lwp_continue, lwp_suspend};
use crate::requests::{Effect, Request};
use crate::signals::{sigaction, sigmask, sigreturn};
use crate::sleeps::sleep;
use pr_model::Res;
use pr_num::Sysno;
use pr_proc::{Lwp, Proc, Sys};

/// Whether all that a call does is known before anything changes.
pub fn is_plain(call: Sysno) -> bool
    ensures { result ≡ is_plain call }
{
    match call {
        Sysno::Exit
        | Sysno::Getpid
        | Sysno::Getppid
        | Sysno::Sigaction
        | Sysno::Sigmask
        | Sysno::Pause
        | Sysno::Sigreturn
        | Sysno::Time
        | Sysno::Sleep
        | Sysno::LwpExit
        | Sysno::LwpSuspend
        | Sysno::LwpContinue => true,
        _ => false,
    }
}

/// A call that gives a value and changes nothing.
fn gives(value: u64) -> Effect
    ensures { result ≡ Effect.Does (Res.Value value) None }
{
    Effect::Does(Res::Value(value), None)
}

/// What such a call of an lwp in its process does.
#[tactic(auto, unfolding(pr_model::specs::CallEffects::call_effect, pr_model::specs::ProcessCalls::exit_effect))]
pub fn decide(sys: &Sys, process: &Proc, lwp: &Lwp, request: &Request) -> Effect
    requires { is_plain request.now.call ≡ true }
    ensures { effect_meant lwp.now result ≡ effect_of sys.now process.now lwp.now request.now }
{
    let args = request.args;
    match request.call {
        // exit(2): the low 8 bits of its argument stand in the high byte of the wait status
        Sysno::Exit => Effect::Ends(args[0] % 256 * 256),
        Sysno::Getpid => gives(u64::from(request.pid)),
        Sysno::Getppid => gives(u64::from(process.parent)),
        Sysno::Sigaction => sigaction(&process.dispositions, args[0], args[1]),
        Sysno::Sigmask => sigmask(lwp.held, args[0]),
        // pause(2): only a signal that is caught ends it
        Sysno::Pause => Effect::Sleeps,
        Sysno::Sigreturn => sigreturn(lwp),
        // time(2): the clock
        Sysno::Time => gives(sys.clock),
        Sysno::Sleep => sleep(sys.clock, request.since, args[0]),
        Sysno::LwpExit => Effect::EndsLwp,
        Sysno::LwpSuspend => lwp_suspend(process, request.lwp, args[0]),
        Sysno::LwpContinue => lwp_continue(process, args[0]),
        _ => unreachable!(),
    }
}
