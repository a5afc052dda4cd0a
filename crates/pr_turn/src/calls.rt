//! The turn of an lwp that performs a system call.
ghost use Rattle.std.specs.Prelude.{◌≡◌, true, IsSome, IfOk, OnErr};
ghost use Rattle.std.specs.Option.{ForSome};
ghost use Rattle.pr_num.specs.ById.{change_under};
ghost use Rattle.pr_model.specs.Lawful.{IsLawfulSystem};
ghost use Rattle.pr_model.specs.Machines.{traced, call_over};
ghost use Rattle.pr_model.specs.Moves.{leaves, moved, sleeps};
ghost use Rattle.pr_model.specs.Points.{is_traced};
ghost use Rattle.pr_model.specs.State.{live_process, with_lwp, with_lwp_of, with_process};
ghost use Rattle.pr_turn.specs.CallTurns.{call_made, call_moved, call_stops, may_take_memory};
ghost use Rattle.pr_turn.specs.Turns.{IsNext, TurnMakes};

use crate::making::{Made, at_point, quiet};
use crate::moving::leave;
use crate::next::{NextTurn, finished};
use pr_call::{Performed, Request, perform};
use pr_model::{Did, Phase, Point, Res};
use pr_num::{ById, NoMemory, Sysno};
use pr_proc::{Lwp, Proc, Sys, live};
use pr_stop::is_traced;
use std::alloc::Global;

/// An lwp falls asleep in a call, or sleeps on.
#[tactic(auto, unfolding(pr_model::specs::Moves::moved, pr_model::specs::Machines::traced))]
fn fall_asleep(lwp: &mut Lwp, request: &Request)
    ensures { lwp.new ≡ moved traced (sleeps request.now.call request.now.args request.now.since) lwp.old }
{
    let args = request.args;
    lwp.phase = Phase::Asleep {
        call: request.call,
        args,
        since: request.since,
    };
}

/// What came of a call makes this of its lwp.
#[tactic(auto, unfolding(crate::specs::CallTurns::call_moved))]
fn move_after(lwp: &mut Lwp, request: &Request, outcome: Performed)
    ensures { lwp.new ≡ call_moved request.now outcome lwp.old }
{
    match outcome {
        Performed::Done(answer) => leave(lwp, request.call, request.args, answer),
        Performed::Sleep => fall_asleep(lwp, request),
        Performed::Ended => {}
    }
}

#[tactic(auto, using(pr_num::proofs::ByIdLaws::by_id_laws), unfolding(pr_model::specs::State::with_lwp))]
fn move_in(process: &mut Proc, request: &Request, outcome: Performed)
    ensures { process.new ≡ with_lwp request.now.lwp (call_moved request.now outcome) process.old }
{
    if let Some(lwp) = process.lwps.find_mut(request.lwp) {
        move_after(lwp, request, outcome);
    }
}

/// The same in the system; an lwp that the call ended is gone.
#[tactic(auto, using(pr_num::proofs::ByIdLaws::by_id_laws), unfolding(pr_model::specs::State::with_process, pr_model::specs::State::with_lwp_of))]
fn move_under(sys: &mut Sys, request: &Request, outcome: Performed)
    ensures { sys.new ≡ with_lwp_of request.now.pid request.now.lwp (call_moved request.now outcome) sys.old }
{
    if let Some(process) = sys.processes.find_mut(request.pid) {
        move_in(process, request, outcome);
    }
}

/// What a turn did of whose call this came.
fn made_after(woken: bool, call: Sysno, outcome: Performed) -> Made
    ensures { result ≡ call_made woken call outcome }
{
    match outcome {
        Performed::Done(answer) => at_point(finished(woken, call, answer), Point::Exit(call)),
        Performed::Sleep => quiet(Did::Slept(call)),
        Performed::Ended => quiet(finished(woken, call, Res::Ended)),
    }
}

/// Whether an lwp stops on its exit from a call, where that is traced or not.
fn stops_after(traced: bool, outcome: Performed) -> bool
    ensures { result ≡ call_stops traced outcome }
{
    match outcome {
        Performed::Done(_) => traced,
        Performed::Sleep => false,
        Performed::Ended => false,
    }
}

/// Whether the live process of an id traces the exit from a call.
fn traces_exit(sys: &Sys, pid: u32, call: Sysno) -> bool
    requires { IsSome (live_process sys.now pid) }
    ensures { ForSome (live_process sys.now pid) (λ p. result ≡ is_traced p.control (Point.Exit call)) }
{
    let process = live(sys, pid).unwrap();
    is_traced(&process.control, Point::Exit(call))
}

/// Performs the call of an lwp, which wakes in it or is at it, and answers what the turn did, and whether its process
/// traces what it met. Where memory runs out, the system stays as it is.
#[tactic(auto, using(crate::proofs::TurnLemmas::next_laws))]
pub fn perform_next(
    alloc: Global,
    sys: &mut Sys,
    woken: bool,
    request: &Request,
) -> Result<(Made, bool), NoMemory>
    requires lawful { IsLawfulSystem sys.old }
    requires next { IsNext sys.old request.now.pid request.now.lwp
        (NextTurn.Performs woken request.now.call request.now.args request.now.since) }
    ensures ok { IfOk result (λ made. TurnMakes sys.old sys.new request.now.pid request.now.lwp made.0 made.1) }
    ensures memory { OnErr result (may_take_memory sys.old request.now.pid request.now.lwp ≡ true) }
    ensures err { OnErr result (sys.new ≡ sys.old) }
{
    let traced = traces_exit(sys, request.pid, request.call);
    let outcome = perform(alloc, sys, request.pid, request.lwp)?;
    move_under(sys, request, outcome);
    Ok((
        made_after(woken, request.call, outcome),
        stops_after(traced, outcome),
    ))
}
