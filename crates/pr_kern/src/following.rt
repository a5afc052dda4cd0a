//! What is noted before a call of a controller, so that the sets of processes that are looked at follow it.
ghost use Rattle.std.specs.Prelude.{◌≡◌};
ghost use Rattle.pr_ready.specs.Following.{around_call, made_by};
ghost use Rattle.pr_ready_laws.specs.Touched.{call_changes_files, process_held, target_of};

use crate::Machine;
use pr_ctl::own;
use pr_model::{Call, Held};
use pr_proc::Sys;
use pr_ready::{Around, note_around};

fn process_held(held: Option<Held>) -> Option<u64>
    ensures { result ≡ process_held held }
{
    match held {
        None => None,
        Some(held) => Some(u64::from(held.pid)),
    }
}

/// Whom a call may end: the process of a handle that is closed or takes a message, and the target of a signal.
fn target_of(state: &Machine, by: u32, call: &Call) -> Option<u64>
    ensures { result ≡ target_of state.now by call.now }
{
    match call {
        Call::Close { handle } | Call::Ctl { handle, .. } => {
            process_held(own(&state.opens, by, *handle))
        }
        Call::Kill { pid, .. } => Some(u64::from(*pid)),
        _ => None,
    }
}

fn made_by(sys: &Sys, call: &Call) -> Option<u32>
    ensures { result ≡ made_by sys.now call.now }
{
    match call {
        Call::Spawn { .. } => Some(sys.made),
        _ => None,
    }
}

/// Notes what a call may touch, before it is made.
#[tactic(auto, unfolding(pr_ready::specs::Following::around_call))]
pub fn around_call(state: &Machine, by: u32, call: &Call) -> Around
    ensures { result ≡ around_call state.now by call.now }
{
    let made = made_by(&state.system, call);
    let target = target_of(state, by, call);
    note_around(&state.system, made, None, target)
}

/// Whether files may differ after a call.
pub fn call_changes_files(call: &Call) -> bool
    ensures { result ≡ call_changes_files call.now }
{
    matches!(
        call,
        Call::Close { .. } | Call::Ctl { .. } | Call::Kill { .. }
    )
}
