//! What comes of sending a signal (kill(2)).
ghost use Rattle.std.specs.Prelude.{◌≡◌, ℕ};
ghost use Rattle.pr_model.specs.Readers.{life_of};
ghost use Rattle.pr_model.specs.SignalCalls.{sending};
ghost use Rattle.pr_num.specs.declared.signals.Sig.{Sig as AnySig};
ghost use Rattle.pr_proc.specs.Sendings.{IsSent, sending_meant};

use crate::Sys;
use pr_num::limits::SIGNAL_COUNT;
use pr_num::{Errno, Sig};

/// What comes of sending a signal of a number to a process.
#[derive(Clone, Copy, Debug, PartialEq, Eq)]
pub enum Sending {
    Refused(Errno),
    Nothing,
    /// This signal is sent to the process of this id.
    Sent(u32, Sig),
}

/// What comes of sending a signal of a number to the process that another number names: EINVAL for no such signal,
/// EPERM for process 0, ESRCH for no such process and EAGAIN where its queue is full, in this order. Signal 0 sends
/// nothing, and a zombie is sent nothing. A signal that is sent has room once it is generated.
#[tactic(auto, using(crate::proofs::SendingLemmas::sending_laws))]
pub fn sending_of(sys: &Sys, target: u64, number: u64) -> Sending
    ensures value { sending_meant result ≡ sending target number (life_of sys.now target) }
    ensures sent { (id : ℕ) (g : AnySig) → result ≡ Sending.Sent id g → IsSent sys.now target id g }
{
    if number > SIGNAL_COUNT as u64 {
        return Sending::Refused(Errno::Inval);
    }
    if target == 0 {
        return Sending::Refused(Errno::Perm);
    }
    let Some(id) = sys.processes.id_of(target) else {
        return Sending::Refused(Errno::Srch);
    };
    let process = sys.processes.get(id).unwrap();
    if process.ended.is_some() {
        return Sending::Nothing;
    }
    match Sig::from_number(number) {
        None => Sending::Nothing,
        Some(signal) if process.pending.room(signal) => Sending::Sent(id, signal),
        Some(_) => Sending::Refused(Errno::Again),
    }
}
