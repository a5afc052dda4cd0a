//! Which system call an lwp makes.
ghost use Rattle.std.specs.Prelude.{◌≡◌};
ghost use Rattle.pr_call.specs.Requests.{request_in, request_of};

use crate::requests::Request;
use pr_model::Phase;
use pr_proc::{Lwp, Sys, arguments_of, live};

/// The call of an lwp, with its id and that of its process: the one at whose entry it is, which begins now, or the one
/// in which it sleeps.
fn request_in(clock: u64, pid: u32, id: u32, lwp: &Lwp) -> Option<Request>
    ensures { result ≡ request_in clock pid id lwp.now lwp.now.phase }
{
    match lwp.phase {
        Phase::User => None,
        Phase::Entered(call) => Some(Request {
            pid,
            lwp: id,
            since: clock,
            call,
            args: arguments_of(&lwp.regs),
        }),
        Phase::Asleep { call, args, since } => Some(Request {
            pid,
            lwp: id,
            since,
            call,
            args,
        }),
        Phase::Exiting { .. } => None,
        Phase::Faulted { .. } => None,
    }
}

/// The call that the lwp of an id in the live process of an id makes.
#[tactic(auto, unfolding(crate::specs::Requests::request_of))]
pub fn request_of(sys: &Sys, pid: u32, id: u32) -> Option<Request>
    ensures { result ≡ request_of sys.now pid id }
{
    let Some(process) = live(sys, pid) else {
        return None;
    };
    match process.lwps.get(id) {
        None => None,
        Some(lwp) => request_in(sys.clock, pid, id, lwp),
    }
}
