//! What a row of the turn table makes of its lwp.
ghost use Rattle.std.specs.Prelude.{◌≡◌, ◌<◌, false, true, length, IfOk, OnErr, OnOk};
ghost use Rattle.pr_num.specs.Limits.{frame_limit};
ghost use Rattle.pr_lwp.specs.Plain.{outcome_of, space_after, stores_bytes};
ghost use Rattle.pr_model.specs.InstructionEffects.{instruction_effect};
ghost use Rattle.pr_model.specs.Machines.{call_over, fault_posted, step_taken, stopped_as_directed, traced};
ghost use Rattle.pr_model.specs.Moves.{drops, leaves, moved, posts, stops, takes};
ghost use Rattle.pr_model.specs.Registers.{stored, with_result};
ghost use Rattle.pr_turn.specs.Making.{effect_of, executed_by, finished, keeps_registers, moved_by};
ghost use Rattle.pr_model.specs.Signals.{current_of, handler_registers};
ghost use Rattle.pr_turn.specs.NextRows.{caught_move, fits, is_own_row, move_of};

use crate::next::Next;
use pr_lwp::{Effect, step};
use pr_mem::Space;
use pr_model::{Current, Frame, PC, Phase, Res, Stop};
use pr_num::{Flt, Info, NoMemory, Sig, Sysno};
use pr_proc::Lwp;
use pr_watch::Areas;

/// Stops an lwp as it was directed to.
#[tactic(auto, unfolding(pr_model::specs::Moves::moved, pr_model::specs::Machines::traced, pr_model::specs::Machines::stopped_as_directed))]
fn stop(lwp: &mut Lwp)
    ensures { lwp.new ≡ moved traced stops lwp.old }
{
    lwp.control.directed = false;
    lwp.control.stop = Some(Stop::Requested);
}

/// The signal of a fault becomes pending for the lwp that incurred it.
#[tactic(auto, using(crate::proofs::MoveLemmas::room_laws), unfolding(pr_model::specs::Moves::moved, pr_model::specs::Machines::traced, pr_model::specs::Machines::fault_posted))]
fn post(lwp: &mut Lwp, fault: Flt, address: u64)
    ensures { lwp.new ≡ moved traced (posts fault address) lwp.old }
{
    lwp.phase = Phase::User;
    lwp.pending.add(fault.signal(), Info::of_fault(address));
}

/// Stores the result of a call: a value in r0, with r7 = 0, or an error in r7, with r0 = 0.
#[tactic(auto, unfolding(pr_model::specs::Registers::with_result))]
fn store_result(regs: &mut [u64; 11], outcome: Res)
    ensures { regs.new ≡ with_result outcome regs.old }
{
    match outcome {
        Res::Value(value) => {
            regs[0] = value;
            regs[7] = 0;
        }
        Res::Error(error) => {
            regs[0] = 0;
            regs[7] = error.number();
        }
        Res::Ended => {}
    }
}

/// Whether a call that succeeds leaves the registers as it made them.
fn keeps_registers(call: Sysno) -> bool
    ensures { result ≡ keeps_registers call }
{
    match call {
        Sysno::Sigreturn | Sysno::Exec => true,
        _ => false,
    }
}

/// Stores the result of a call, but for sigreturn and a successful exec, which leave the registers as they made them.
#[tactic(auto, using(crate::proofs::MoveLemmas::stored_laws))]
fn store(regs: &mut [u64; 11], call: Sysno, outcome: Res)
    ensures { regs.new ≡ stored call outcome regs.old }
{
    if let Res::Value(_) = outcome {
        if keeps_registers(call) {
            return;
        }
    }
    store_result(regs, outcome);
}

/// A call gives its result.
#[tactic(auto, unfolding(pr_model::specs::Moves::moved, pr_model::specs::Machines::traced, pr_model::specs::Machines::call_over))]
pub fn leave(lwp: &mut Lwp, call: Sysno, args: [u64; 6], outcome: Res)
    ensures { lwp.new ≡ moved traced (leaves call args outcome) lwp.old }
{
    store(&mut lwp.regs, call, outcome);
    lwp.phase = Phase::Exiting {
        call,
        args,
        result: outcome,
    };
    lwp.control.abort = false;
}

/// Takes an lwp on its way out of a call back to its program; a step mark is used up.
#[tactic(auto, unfolding(crate::specs::NextRows::move_of, pr_model::specs::Moves::moved, pr_model::specs::Machines::traced, pr_model::specs::Machines::step_taken, pr_model::specs::Machines::fault_incurred))]
fn return_from(lwp: &mut Lwp, call: Sysno)
    ensures { lwp.new ≡ moved traced (move_of lwp.old (Next.Returned call)) lwp.old }
{
    if lwp.control.step {
        lwp.control.step = false;
        lwp.phase = Phase::Faulted {
            fault: Flt::Trace,
            address: lwp.regs[PC],
        };
    } else {
        lwp.phase = Phase::User;
    }
}

/// A signal that pends for an lwp alone becomes its current one, with its information.
#[tactic(auto, unfolding(pr_model::specs::Moves::moved))]
fn take_own(lwp: &mut Lwp, signal: Sig)
    ensures { lwp.new ≡ moved traced (takes (current_of signal lwp.old.pending) true) lwp.old }
{
    let info = lwp.pending.info(signal).unwrap_or(Info::none());
    lwp.pending.delete_one(signal);
    lwp.current = Some(Current { signal, info });
}

/// A signal that pended for the process of an lwp becomes its current one.
#[tactic(auto, unfolding(pr_model::specs::Moves::moved))]
pub fn set_current(lwp: &mut Lwp, current: Current)
    ensures { lwp.new ≡ moved traced (takes current false) lwp.old }
{
    lwp.current = Some(current);
}

/// The current signal of an lwp is dropped.
#[tactic(auto, unfolding(pr_model::specs::Moves::moved))]
pub fn drop_current(lwp: &mut Lwp)
    ensures { lwp.new ≡ moved traced drops lwp.old }
{
    lwp.current = None;
}

/// The registers with which a handler begins: r1 to r4 are the signal and its information, and pc is its address.
#[tactic(auto, unfolding(pr_model::specs::Signals::handler_registers))]
fn begin_handler(regs: &mut [u64; 11], current: Current, handler: u64)
    ensures { regs.new ≡ handler_registers current handler regs.old }
{
    regs[1] = current.signal.number();
    regs[2] = current.info.code;
    regs[3] = current.info.pid;
    regs[4] = current.info.value;
    regs[PC] = handler;
}

/// A handler runs, with its signal held; what it interrupted is saved in a frame, which has room.
#[tactic(auto, unfolding(pr_model::specs::Moves::moved, pr_model::specs::Machines::traced, pr_model::specs::Signals::handler_held))]
fn catch_signal(lwp: &mut Lwp, current: Current, handler: u64)
    requires { length lwp.old.frames < frame_limit }
    ensures { lwp.new ≡ moved traced (caught_move lwp.old current handler) lwp.old }
{
    let frame = Frame {
        regs: lwp.regs,
        held: lwp.held,
    };
    lwp.frames.push(frame);
    begin_handler(&mut lwp.regs, current, handler);
    lwp.held = lwp.held.with(current.signal);
    lwp.current = None;
    lwp.phase = Phase::User;
}

/// What a row that changes its lwp alone makes of it.
#[tactic(auto, unfolding(crate::specs::NextRows::move_of, crate::specs::Making::moved_by))]
pub fn move_lwp(lwp: &mut Lwp, next: Next)
    requires own { is_own_row next ≡ true }
    requires fits { fits lwp.old next ≡ true }
    ensures { lwp.new ≡ moved_by next lwp.old }
{
    match next {
        Next::Requested => stop(lwp),
        Next::Posted { fault, address } => post(lwp, fault, address),
        Next::Gave {
            call,
            args,
            result: outcome,
            ..
        } => leave(lwp, call, args, outcome),
        Next::Returned(call) => return_from(lwp, call),
        Next::TookOwn(signal) => take_own(lwp, signal),
        Next::Dropped(_) => drop_current(lwp),
        Next::Caught { current, handler } => catch_signal(lwp, current, handler),
        Next::Ends { .. } => unreachable!(),
        Next::Executed => unreachable!(),
        Next::TookShared(_) => unreachable!(),
        Next::JobStopped(_) => unreachable!(),
    }
}

/// Brings an lwp to the system call or the fault to which its instruction came.
#[tactic(auto, unfolding(crate::specs::Making::finished))]
fn finish(lwp: &mut Lwp, effect: Effect)
    ensures { lwp.new ≡ finished effect lwp.old }
{
    match effect {
        Effect::Ran => {}
        Effect::Sys(call) => lwp.phase = Phase::Entered(call),
        Effect::Fault(fault, address) => lwp.phase = Phase::Faulted { fault, address },
    }
}

/// Runs the instruction at pc, and brings the lwp to the system call or the fault to which it came. Memory runs out
/// only for what it stores; nothing is changed then.
#[tactic(auto, using(crate::proofs::MoveLemmas::executed_laws))]
pub fn execute_lwp(lwp: &mut Lwp, space: &mut Space, areas: &Areas) -> Result<Effect, NoMemory>
    ensures lwp { OnOk result (lwp.new ≡ executed_by (instruction_effect space.old areas.now lwp.old.regs) lwp.old) }
    ensures space { OnOk result (space.new ≡ space_after (instruction_effect space.old areas.now lwp.old.regs) space.old) }
    ensures effect { IfOk result (λ effect. effect ≡ effect_of lwp.old (instruction_effect space.old areas.now lwp.old.regs)) }
    ensures memory { OnErr result (stores_bytes (instruction_effect space.old areas.now lwp.old.regs) ≡ true) }
    ensures kept_lwp { OnErr result (lwp.new ≡ lwp.old) }
    ensures kept_space { OnErr result (space.new ≡ space.old) }
{
    let effect = step(lwp, space, areas)?;
    finish(lwp, effect);
    Ok(effect)
}
