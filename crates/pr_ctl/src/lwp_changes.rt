//! What control messages change of one lwp.
ghost use Rattle.std.specs.Prelude.{◌≡◌};
ghost use Rattle.pr_num.specs.ById.{change_under};
ghost use Rattle.pr_model.specs.Messages.{lwp_without_one, with_address, with_held_set, with_registers, with_signal_set};
ghost use Rattle.pr_model.specs.State.{with_lwp, with_process};
ghost use Rattle.pr_ctl.specs.Changes.{lwp_changed};

use crate::running::{clear_fault, clear_signal};
use pr_model::{Current, PC};
use pr_num::{ById, Info, Sig, SigSet};
use pr_proc::{Lwp, Proc, Sys};

/// What a message changes of an lwp.
#[derive(Clone, Copy, Debug, PartialEq, Eq)]
pub enum LwpChange {
    /// PCCSIG: it has no current signal.
    ClearSignal,
    /// PCCFAULT: it has no current fault.
    ClearFault,
    /// PCSSIG: its current signal is this one, or none.
    SetSignal(Option<Sig>),
    /// PCSHOLD: it holds these signals, but for SIGKILL and SIGSTOP.
    Hold(SigSet),
    /// PCSREG.
    SetRegisters([u64; 11]),
    /// PCSVADDR: it goes on at this address.
    SetAddress(u64),
    /// PCUNKILL: the signal pends for it no more; of one that queues, the first that came.
    Unkill(Sig),
}

/// Sets the current signal, which no other is given up for.
#[tactic(auto, unfolding(pr_model::specs::Messages::with_signal_set))]
fn set_signal(lwp: &mut Lwp, signal: Option<Sig>)
    ensures { lwp.new ≡ with_signal_set signal lwp.old }
{
    match signal {
        None => clear_signal(lwp),
        Some(signal) => {
            lwp.current = Some(Current {
                signal,
                info: Info::by_controller(),
            });
        }
    }
}

/// Sets the held signals. SIGKILL and SIGSTOP are never held.
#[tactic(auto, unfolding(pr_model::specs::Messages::with_held_set, pr_num::specs::Signals::holdable_word))]
fn hold(lwp: &mut Lwp, signals: SigSet)
    ensures { lwp.new ≡ with_held_set signals lwp.old }
{
    lwp.held = signals.without(Sig::Kill).without(Sig::Stop);
}

#[tactic(auto, unfolding(pr_model::specs::Messages::with_registers))]
fn set_registers(lwp: &mut Lwp, regs: [u64; 11])
    ensures { lwp.new ≡ with_registers regs lwp.old }
{
    lwp.regs = regs;
}

#[tactic(auto, unfolding(pr_model::specs::Messages::with_address))]
fn set_address(lwp: &mut Lwp, pc: u64)
    ensures { lwp.new ≡ with_address pc lwp.old }
{
    lwp.regs[PC] = pc;
}

#[tactic(auto, unfolding(pr_model::specs::Messages::lwp_without_one))]
fn unkill(lwp: &mut Lwp, signal: Sig)
    ensures { lwp.new ≡ lwp_without_one signal lwp.old }
{
    lwp.pending.delete_one(signal);
}

/// Changes an lwp.
#[tactic(auto, unfolding(crate::specs::Changes::lwp_changed))]
fn change_lwp(lwp: &mut Lwp, change: LwpChange)
    ensures { lwp.new ≡ lwp_changed change lwp.old }
{
    match change {
        LwpChange::ClearSignal => clear_signal(lwp),
        LwpChange::ClearFault => clear_fault(lwp),
        LwpChange::SetSignal(signal) => set_signal(lwp, signal),
        LwpChange::Hold(signals) => hold(lwp, signals),
        LwpChange::SetRegisters(regs) => set_registers(lwp, regs),
        LwpChange::SetAddress(pc) => set_address(lwp, pc),
        LwpChange::Unkill(signal) => unkill(lwp, signal),
    }
}

/// Changes the lwp of an id, if there is one.
#[tactic(auto, using(pr_num::proofs::ByIdLaws::by_id_laws))]
fn change_under(lwps: &mut ById<Lwp>, id: u32, change: LwpChange)
    ensures { lwps.new ≡ change_under id (lwp_changed change) lwps.old }
{
    if let Some(lwp) = lwps.find_mut(id) {
        change_lwp(lwp, change);
    }
}

#[tactic(auto, unfolding(pr_model::specs::State::with_lwp))]
fn change_in(process: &mut Proc, id: u32, change: LwpChange)
    ensures { process.new ≡ with_lwp id (lwp_changed change) process.old }
{
    change_under(&mut process.lwps, id, change);
}

/// Changes the lwp of an id in the process of an id, if there is one.
#[tactic(auto, using(pr_num::proofs::ByIdLaws::by_id_laws), unfolding(pr_model::specs::State::with_process))]
pub fn change_lwp_of(sys: &mut Sys, pid: u32, id: u32, change: LwpChange)
    ensures { sys.new ≡ with_process pid (with_lwp id (lwp_changed change)) sys.old }
{
    if let Some(process) = sys.processes.find_mut(pid) {
        change_in(process, id, change);
    }
}
