//! Signals that are sent from outside (kill(2)).
ghost use Rattle.std.specs.Prelude.{◌≡◌};
ghost use Rattle.pr_model.specs.Calls.{Answer, kill_answer};

use crate::Machine;
use pr_model::Reply;
use pr_num::Info;
use pr_proc::{Sending, generate, sending_of};

/// Sends a signal of a number to a process from outside (EINVAL, EPERM, ESRCH, EAGAIN). Takes no memory.
#[tactic(auto, unfolding(pr_model::specs::Calls::kill_answer, pr_model::specs::SignalCalls::with_sent))]
pub fn kill(state: &mut Machine, pid: u32, number: u64) -> Reply
    ensures { (record { state = state.new; reply = result }) ≡ kill_answer state.old pid number }
{
    match sending_of(&state.system, pid as u64, number) {
        Sending::Refused(error) => Reply::Fail(error),
        Sending::Nothing => Reply::Done,
        Sending::Sent(id, signal) => {
            generate(&mut state.system, id, None, signal, Info::killed_by(0));
            Reply::Done
        }
    }
}
