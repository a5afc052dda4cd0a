//! Writes of control messages (proc(4), "CONTROL MESSAGES"): what the first message of a write does.
ghost use Rattle.std.specs.Prelude.{◌≡◌, ◌≤◌, true, None, IsOk, IfOk, OnErr, length};
ghost use Rattle.std.specs.Option.{ForSome, IsSome};
ghost use Rattle.pr_num.specs.Limits.{clock_limit};
ghost use Rattle.pr_num.specs.Messages.{bad_operand, first_message, unpadded_length};
ghost use Rattle.pr_model.specs.ControlMessages.{control_answer, decoded_answer, system_refusal, tail_of, target_of};
ghost use Rattle.pr_model.specs.State.{live_process};
ghost use Rattle.pr_ctl.specs.Answers.{Answers};
ghost use Rattle.pr_ctl.specs.Memory.{begins_in_place, is_in_place};

use crate::agents::agent;
use crate::aims::{cfault, csig, shold, sreg, svaddr};
use crate::directing::{dstop, run, stop, twstop};
use crate::memory::{read, write};
use crate::settings::{sentry, set_mode, sexit, sfault, strace, unset_mode};
use crate::signals::{kill, ssig, unkill};
use crate::targets::{aim, control_handle, target};
use crate::watching::watch;
use pr_model::{Held, Reply};
use pr_msg::decode_one;
use pr_num::{Errno, Message, MsgFault, NoMemory};
use pr_open::Opens;
use pr_proc::Sys;
use std::alloc::Global;

/// Why process 0 refuses a message.
fn system_refusal(message: Message) -> Errno
    ensures { result ≡ system_refusal message }
{
    match message {
        Message::Set { .. } | Message::Unset { .. } => Errno::Inval,
        _ => Errno::Busy,
    }
}

/// The first message of bytes, whose operands lie in their columns and which has its bytes to write, and how many bytes
/// encode it.
pub fn first_message(bytes: &[u8]) -> Result<(Message, usize), MsgFault>
    ensures value { result ≡ first_message bytes.now }
    ensures columns { IfOk result (λ first. bad_operand first.0 ≡ None) }
    ensures tail { IfOk result (λ first. unpadded_length first.0 ≤ length bytes.now) }
{
    decode_one(bytes)
}

/// The bytes that stand after the operands of the message with which bytes begin.
#[tactic(auto, unfolding(pr_num::specs::Messages::unpadded_length, pr_num::specs::Messages::operand_count, pr_num::specs::Messages::tail_length))]
pub fn tail(bytes: &[u8], message: Message) -> &[u8]
    requires { unpadded_length message ≤ length bytes.now }
    ensures { result.now ≡ tail_of message bytes.now }
{
    match message {
        Message::Write { len, .. } => &bytes[24..24 + len as usize],
        _ => &[],
    }
}

/// What a message of so many bytes does that a live process takes, through the file of the lwp of an id or of the
/// process, a row a message. PCREAD, PCWRITE and PCAGENT alone take memory; where it runs out, the system stays as it
/// is.
#[tactic(auto, unfolding(pr_model::specs::Messages::message_answer))]
fn handle(
    alloc: Global,
    sys: &mut Sys,
    pid: u32,
    lwp: Option<u32>,
    message: Message,
    tail: &[u8],
    length: u64,
) -> Result<Reply, NoMemory>
    requires live { IsSome (live_process sys.old pid) }
    requires clock { sys.old.clock ≤ clock_limit }
    requires columns { bad_operand message ≡ None }
    ensures ok { IfOk result (λ reply. Answers sys.old pid lwp message tail.now length sys.new reply) }
    ensures err { OnErr result (sys.new ≡ sys.old) }
    ensures sure { is_in_place message ≡ true → IsOk result }
{
    match message {
        Message::Stop => Ok(stop(sys, pid, lwp)),
        Message::Dstop => Ok(dstop(sys, pid, lwp, length)),
        Message::Wstop => Ok(Reply::Half(0)),
        Message::Twstop { ms } => Ok(twstop(sys, pid, ms)),
        Message::Run { flags } => Ok(run(sys, pid, lwp, flags, length)),
        Message::Csig => Ok(csig(sys, pid, lwp, length)),
        Message::Cfault => Ok(cfault(sys, pid, lwp, length)),
        Message::Ssig { signal } => Ok(ssig(sys, pid, lwp, signal, length)),
        Message::Kill { signal } => Ok(kill(sys, pid, lwp, signal, length)),
        Message::Unkill { signal } => Ok(unkill(sys, pid, lwp, signal, length)),
        Message::Shold { signals } => Ok(shold(sys, pid, lwp, signals, length)),
        Message::Strace { signals } => Ok(strace(sys, pid, signals, length)),
        Message::Sfault { faults } => Ok(sfault(sys, pid, faults, length)),
        Message::Sentry { calls } => Ok(sentry(sys, pid, calls, length)),
        Message::Sexit { calls } => Ok(sexit(sys, pid, calls, length)),
        Message::Set { modes } => Ok(set_mode(sys, pid, modes, length)),
        Message::Unset { modes } => Ok(unset_mode(sys, pid, modes, length)),
        Message::Sreg { regs } => Ok(sreg(sys, pid, lwp, regs, length)),
        Message::Svaddr { pc } => Ok(svaddr(sys, pid, lwp, pc, length)),
        Message::Watch { at, size, flags } => Ok(watch(sys, pid, at, size, flags, length)),
        Message::Agent { regs } => agent(sys, pid, regs, length),
        Message::Read { at, len } => read(alloc, sys, pid, at, len),
        Message::Write { at, .. } => write(sys, pid, at, tail, length),
    }
}

/// Handles the message with which bytes begin, for the process that a control handle acts on: bytes that begin with no
/// message are refused (EINVAL), and process 0 takes none.
#[tactic(auto, using(crate::proofs::TargetLemmas::target_laws))]
fn handle_first(alloc: Global, sys: &mut Sys, held: Held, bytes: &[u8]) -> Result<Reply, NoMemory>
    requires there { IsSome (target_of sys.old held) }
    requires clock { sys.old.clock ≤ clock_limit }
    ensures ok { IfOk result
        (λ reply.
        ForSome (target_of sys.old held)
        (λ p. (record { system = sys.new; reply = reply })
        ≡ decoded_answer sys.old held p bytes.now (first_message bytes.now))) }
    ensures err { OnErr result (sys.new ≡ sys.old) }
    ensures sure { begins_in_place (first_message bytes.now) ≡ true → IsOk result }
{
    let Ok((message, length)) = first_message(bytes) else {
        return Ok(Reply::Fail(Errno::Inval));
    };
    if held.pid == 0 {
        return Ok(Reply::Fail(system_refusal(message)));
    }
    let tail = tail(bytes, message);
    handle(
        alloc,
        sys,
        held.pid,
        aim(held),
        message,
        tail,
        length as u64,
    )
}

/// Handles the first control message of a write by a controller, or refuses it: EBADF, ENOENT, EINVAL for bytes that
/// begin with no message, and what process 0 and the message itself refuse, in this order. PCREAD, PCWRITE and PCAGENT
/// alone take memory; where it runs out, the system stays as it is.
#[tactic(auto, unfolding(pr_model::specs::ControlMessages::control_answer))]
pub fn control(
    alloc: Global,
    sys: &mut Sys,
    opens: &Opens,
    by: u32,
    handle: u32,
    bytes: &[u8],
) -> Result<Reply, NoMemory>
    requires clock { sys.old.clock ≤ clock_limit }
    ensures ok { IfOk result
        (λ reply. (record { system = sys.new; reply = reply }) ≡ control_answer sys.old opens.now by handle bytes.now) }
    ensures err { OnErr result (sys.new ≡ sys.old) }
    ensures sure { begins_in_place (first_message bytes.now) ≡ true → IsOk result }
{
    let Some(held) = control_handle(opens, by, handle) else {
        return Ok(Reply::Fail(Errno::Badf));
    };
    if target(sys, held).is_none() {
        return Ok(Reply::Fail(Errno::Noent));
    }
    handle_first(alloc, sys, held, bytes)
}
