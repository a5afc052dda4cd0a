//! Messages that send a signal, or take one back (proc(4), "PCSSIG", "PCKILL", "PCUNKILL").
ghost use Rattle.std.specs.Prelude.{◌≡◌, ℕ, List, None, IsSome};
ghost use Rattle.std.specs.Option.{ForSome};
ghost use Rattle.pr_num.specs.declared.messages.Message.TheVariants as message;
ghost use Rattle.pr_parts.specs.PendingSignals.{has_room};
ghost use Rattle.pr_model.specs.Messages.{is_kill_of, killed, process_without_one};
ghost use Rattle.pr_model.specs.State.{TracedProcess, TracedSystem, live_process, with_process};
ghost use Rattle.pr_ctl.specs.Answers.{Answers};
ghost use Rattle.pr_ctl.specs.Signals.{kill_by_id, pending_for, unkilled};

use crate::aims::set_signal;
use crate::lwp_changes::{LwpChange, change_lwp_of};
use pr_model::Reply;
use pr_num::{Errno, Info, Sig};
use pr_proc::{Proc, Sys, end, generate, live};

/// Whether a signal is SIGKILL.
fn is_kill(signal: Option<Sig>) -> bool
    ensures { (s : TracedSystem) (pid : ℕ) (p : TracedProcess) → result ≡ is_kill_of s pid p signal }
{
    match signal {
        Some(Sig::Kill) => true,
        _ => false,
    }
}

/// Ends a live process as by SIGKILL.
#[tactic(auto, using(crate::proofs::CloseLemmas::close_laws), unfolding(pr_model::specs::Messages::killed))]
fn kill_process(sys: &mut Sys, pid: u32, length: u64) -> Reply
    requires { IsSome (live_process sys.old pid) }
    ensures { ForSome (live_process sys.old pid)
        (λ p. (record { system = sys.new; reply = result }) ≡ killed sys.old pid p length) }
{
    end(sys, pid, Sig::Kill.number());
    Reply::Used(length)
}

/// PCSSIG: sets the current signal; 0 clears it, and SIGKILL ends the process.
#[tactic(auto, using(crate::proofs::AimLemmas::aim_laws), unfolding(pr_model::specs::Messages::message_answer, pr_model::specs::Messages::ssig_answer))]
pub fn ssig(sys: &mut Sys, pid: u32, lwp: Option<u32>, number: u64, length: u64) -> Reply
    requires { IsSome (live_process sys.old pid) }
    ensures { (tail : List ℕ) → Answers sys.old pid lwp (message.Ssig number) tail length sys.new result }
{
    let signal = Sig::from_number(number);
    if is_kill(signal) {
        return kill_process(sys, pid, length);
    }
    set_signal(sys, pid, lwp, signal, length)
}

/// Whether a signal has room where it is to pend: for the lwp of an id, or where none is named for the process.
#[tactic(auto, unfolding(crate::specs::Signals::pending_for))]
fn room(process: &Proc, lwp: Option<u32>, signal: Sig) -> bool
    ensures { result ≡ has_room signal (pending_for process.now lwp) }
{
    let Some(id) = lwp else {
        return process.pending.room(signal);
    };
    match process.lwps.get(id) {
        None => process.pending.room(signal),
        Some(lwp) => lwp.pending.room(signal),
    }
}

#[tactic(auto, using(crate::proofs::SignalLemmas::signal_laws), unfolding(crate::specs::Signals::kill_by_id))]
fn kill_by_id(sys: &mut Sys, pid: u32, lwp: Option<u32>, signal: Sig, length: u64) -> Reply
    requires { IsSome (live_process sys.old pid) }
    ensures { ForSome (live_process sys.old pid)
        (λ p. (record { system = sys.new; reply = result }) ≡ kill_by_id sys.old pid p lwp length signal) }
{
    if !room(live(sys, pid).unwrap(), lwp, signal) {
        return Reply::Fail(Errno::Again);
    }
    generate(sys, pid, lwp, signal, Info::by_controller());
    Reply::Used(length)
}

/// PCKILL: sends a signal to the process, or to the lwp of an id in it (EAGAIN).
#[tactic(auto, using(crate::proofs::SignalLemmas::signal_laws), unfolding(pr_model::specs::Messages::message_answer, pr_model::specs::Messages::kill_answer))]
pub fn kill(sys: &mut Sys, pid: u32, lwp: Option<u32>, number: u64, length: u64) -> Reply
    requires { IsSome (live_process sys.old pid) }
    ensures { (tail : List ℕ) → Answers sys.old pid lwp (message.Kill number) tail length sys.new result }
{
    let Some(signal) = Sig::from_number(number) else {
        return Reply::Used(length);
    };
    kill_by_id(sys, pid, lwp, signal, length)
}

/// A signal pends for a process no more; of one that queues, the first that came.
#[tactic(auto, unfolding(pr_model::specs::Messages::process_without_one))]
fn take_back(process: &mut Proc, signal: Sig)
    ensures { (s : TracedSystem) (pid : ℕ) (p : TracedProcess)
        → process.new ≡ process_without_one s pid p signal process.old }
{
    process.pending.delete_one(signal);
}

#[tactic(auto, using(pr_num::proofs::ByIdLaws::by_id_laws), unfolding(pr_model::specs::State::with_process))]
fn take_back_from(sys: &mut Sys, pid: u32, signal: Sig)
    ensures { (s : TracedSystem) (p : TracedProcess)
        → sys.new ≡ with_process pid (process_without_one s pid p signal) sys.old }
{
    if let Some(process) = sys.processes.find_mut(pid) {
        take_back(process, signal);
    }
}

#[tactic(auto, unfolding(crate::specs::Signals::unkilled, crate::specs::Changes::lwp_changed))]
fn unkill_by_id(sys: &mut Sys, pid: u32, lwp: Option<u32>, signal: Sig)
    ensures { (s : TracedSystem) (p : TracedProcess)
        → sys.new ≡ with_process pid (unkilled s pid p signal lwp) sys.old }
{
    match lwp {
        None => take_back_from(sys, pid, signal),
        Some(id) => change_lwp_of(sys, pid, id, LwpChange::Unkill(signal)),
    }
}

/// PCUNKILL: a signal pends for the process, or for the lwp of an id in it, no more; of one that queues, the first that
/// came.
#[tactic(auto, using(crate::proofs::SignalLemmas::signal_laws), unfolding(pr_model::specs::Messages::message_answer, pr_model::specs::Messages::unkill_answer))]
pub fn unkill(sys: &mut Sys, pid: u32, lwp: Option<u32>, number: u64, length: u64) -> Reply
    ensures { (tail : List ℕ) → Answers sys.old pid lwp (message.Unkill number) tail length sys.new result }
{
    let Some(signal) = Sig::from_number(number) else {
        return Reply::Used(length);
    };
    unkill_by_id(sys, pid, lwp, signal);
    Reply::Used(length)
}
