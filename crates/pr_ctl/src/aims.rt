//! Messages that change the lwp on which they act: through the file of an lwp that lwp, and else the representative of
//! the process.
ghost use Rattle.std.specs.Prelude.{◌≡◌, ℕ, List, None, IsSome, option_map};
ghost use Rattle.std.specs.Option.{ForSome};
ghost use Rattle.pr_num.specs.Messages.{bad_operand};
ghost use Rattle.pr_num.specs.declared.messages.Message.TheVariants as message;
ghost use Rattle.pr_model.specs.Messages.{with_signal_set};
ghost use Rattle.pr_model.specs.State.{live_process};
ghost use Rattle.pr_model.specs.Stops.{representative};
ghost use Rattle.pr_ctl.specs.Answers.{Answers};
ghost use Rattle.pr_ctl.specs.Changes.{aimed_by, aimed_changed, aimed_of, lwp_changed, stopped_changed};

use crate::lwp_changes::{LwpChange, change_lwp_of};
use pr_model::Reply;
use pr_num::{Errno, Sig, SigSet};
use pr_proc::{Lwp, Proc, Sys, live};
use pr_stop::{representative, representative_lwp};

/// The lwp on which a message acts: its id, and whether it stands on an event of interest.
#[derive(Clone, Copy, Debug, PartialEq, Eq)]
pub struct Aimed {
    pub id: u32,
    pub on_event: bool,
}

fn aimed_of(id: u32, lwp: &Lwp) -> Aimed
    ensures { result ≡ aimed_of (id, lwp.now) }
{
    Aimed {
        id,
        on_event: lwp.control.stop.is_some(),
    }
}

/// The representative of a process.
#[tactic(auto, using(crate::proofs::AimLemmas::representative_laws))]
fn aimed_representative(process: &Proc) -> Option<Aimed>
    ensures { result ≡ option_map aimed_of (representative process.now) }
{
    let id = representative(process)?;
    let lwp = representative_lwp(process)?;
    Some(aimed_of(id, lwp))
}

/// The lwp of an id in a process, or where none is named its representative.
#[tactic(auto, unfolding(crate::specs::Changes::aimed_by))]
fn lwp_of_aim(process: &Proc, lwp: Option<u32>) -> Option<Aimed>
    ensures { result ≡ aimed_by process.now lwp }
{
    let Some(id) = lwp else {
        return aimed_representative(process);
    };
    let lwp = process.lwps.get(id)?;
    Some(aimed_of(id, lwp))
}

/// Changes the lwp on which a message acts, if there is one.
#[tactic(auto, unfolding(crate::specs::Changes::aimed_changed))]
fn change_aimed(sys: &mut Sys, pid: u32, lwp: Option<u32>, change: LwpChange, length: u64) -> Reply
    requires { IsSome (live_process sys.old pid) }
    ensures { ForSome (live_process sys.old pid)
        (λ p. (record { system = sys.new; reply = result })
        ≡ aimed_changed sys.old pid p length (lwp_changed change) (aimed_by p lwp)) }
{
    let Some(found) = lwp_of_aim(live(sys, pid).unwrap(), lwp) else {
        return Reply::Used(length);
    };
    change_lwp_of(sys, pid, found.id, change);
    Reply::Used(length)
}

/// Changes the lwp on which a message acts, where it stands on an event of interest (EBUSY).
#[tactic(auto, unfolding(crate::specs::Changes::stopped_changed))]
fn change_stopped(
    sys: &mut Sys,
    pid: u32,
    lwp: Option<u32>,
    change: LwpChange,
    length: u64,
) -> Reply
    requires { IsSome (live_process sys.old pid) }
    ensures { ForSome (live_process sys.old pid)
        (λ p. (record { system = sys.new; reply = result })
        ≡ stopped_changed sys.old pid p length (lwp_changed change) (aimed_by p lwp)) }
{
    let Some(found) = lwp_of_aim(live(sys, pid).unwrap(), lwp) else {
        return Reply::Fail(Errno::Busy);
    };
    if !found.on_event {
        return Reply::Fail(Errno::Busy);
    }
    change_lwp_of(sys, pid, found.id, change);
    Reply::Used(length)
}

/// PCCSIG: clears the current signal.
#[tactic(auto, using(crate::proofs::AimLemmas::aim_laws), unfolding(pr_model::specs::Messages::message_answer, crate::specs::Changes::lwp_changed))]
pub fn csig(sys: &mut Sys, pid: u32, lwp: Option<u32>, length: u64) -> Reply
    requires { IsSome (live_process sys.old pid) }
    ensures { (tail : List ℕ) → Answers sys.old pid lwp message.Csig tail length sys.new result }
{
    change_aimed(sys, pid, lwp, LwpChange::ClearSignal, length)
}

/// PCCFAULT: clears the current fault.
#[tactic(auto, using(crate::proofs::AimLemmas::aim_laws), unfolding(pr_model::specs::Messages::message_answer, crate::specs::Changes::lwp_changed))]
pub fn cfault(sys: &mut Sys, pid: u32, lwp: Option<u32>, length: u64) -> Reply
    requires { IsSome (live_process sys.old pid) }
    ensures { (tail : List ℕ) → Answers sys.old pid lwp message.Cfault tail length sys.new result }
{
    change_aimed(sys, pid, lwp, LwpChange::ClearFault, length)
}

/// PCSHOLD: sets the held signals, of which SIGKILL and SIGSTOP never are.
#[tactic(auto, using(crate::proofs::AimLemmas::aim_laws), unfolding(pr_model::specs::Messages::message_answer, pr_num::specs::Messages::bad_operand, crate::specs::Changes::lwp_changed))]
pub fn shold(sys: &mut Sys, pid: u32, lwp: Option<u32>, signals: u64, length: u64) -> Reply
    requires live { IsSome (live_process sys.old pid) }
    requires columns { bad_operand (message.Shold signals) ≡ None }
    ensures { (tail : List ℕ) → Answers sys.old pid lwp (message.Shold signals) tail length sys.new result }
{
    change_aimed(
        sys,
        pid,
        lwp,
        LwpChange::Hold(SigSet::of_word(signals)),
        length,
    )
}

/// PCSREG: sets the registers of an lwp that stands on an event of interest (EBUSY).
#[tactic(auto, using(crate::proofs::AimLemmas::aim_laws), unfolding(pr_model::specs::Messages::message_answer, crate::specs::Changes::lwp_changed))]
pub fn sreg(sys: &mut Sys, pid: u32, lwp: Option<u32>, regs: [u64; 11], length: u64) -> Reply
    requires { IsSome (live_process sys.old pid) }
    ensures { (tail : List ℕ) → Answers sys.old pid lwp (message.Sreg regs) tail length sys.new result }
{
    change_stopped(sys, pid, lwp, LwpChange::SetRegisters(regs), length)
}

/// PCSVADDR: sets the address at which an lwp goes on that stands on an event of interest (EBUSY).
#[tactic(auto, using(crate::proofs::AimLemmas::aim_laws), unfolding(pr_model::specs::Messages::message_answer, crate::specs::Changes::lwp_changed))]
pub fn svaddr(sys: &mut Sys, pid: u32, lwp: Option<u32>, pc: u64, length: u64) -> Reply
    requires { IsSome (live_process sys.old pid) }
    ensures { (tail : List ℕ) → Answers sys.old pid lwp (message.Svaddr pc) tail length sys.new result }
{
    change_stopped(sys, pid, lwp, LwpChange::SetAddress(pc), length)
}

/// Sets the current signal of the lwp on which a message acts.
#[tactic(auto, unfolding(crate::specs::Changes::lwp_changed))]
pub fn set_signal(
    sys: &mut Sys,
    pid: u32,
    lwp: Option<u32>,
    signal: Option<Sig>,
    length: u64,
) -> Reply
    requires { IsSome (live_process sys.old pid) }
    ensures { ForSome (live_process sys.old pid)
        (λ p. (record { system = sys.new; reply = result })
        ≡ aimed_changed sys.old pid p length (with_signal_set signal) (aimed_by p lwp)) }
{
    change_aimed(sys, pid, lwp, LwpChange::SetSignal(signal), length)
}
