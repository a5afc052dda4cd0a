//! The calls that controllers make of the kernel: which are ready, and what each answers.
ghost use Rattle.std.specs.Prelude.{◌≡◌, ◌≤◌, ◌<◌, true, Some, is_some, IsOk, IfOk, OnErr};
ghost use Rattle.pr_num.specs.Limits.{clock_limit, controller_limit};
ghost use Rattle.pr_num.specs.Messages.{first_message};
ghost use Rattle.pr_model.specs.Calls.{Answer, answer_to, controlled, is_interrupted};
ghost use Rattle.pr_model.specs.ControlMessages.{control_answer, wait_reply};
ghost use Rattle.pr_model.specs.Lawful.{IsLawfulSystem};
ghost use Rattle.pr_ctl.specs.Memory.{begins_in_place};
ghost use Rattle.pr_kern.specs.Kernels.{takes_no_memory};
ghost use Rattle.pr_kern.specs.Memory.{may_lack_memory};
ghost use Rattle.std.specs.Option.{ForSome};

use crate::Machine;
use crate::closes::close;
use crate::interrupts::{finish, interrupt, is_interrupted, poll_reply, until_reply};
use crate::opens::open;
use crate::processes::{list, spawn};
use crate::reads::read;
use crate::sending::kill;
use pr_ctl::{control, control_wait};
use pr_model::{Call, Held, Reply};
use pr_num::NoMemory;
use std::alloc::Global;

/// Handles the first control message of a write. PCREAD, PCWRITE and PCAGENT alone take memory; where it runs out, the
/// state is as it was.
fn write(
    state: &mut Machine,
    alloc: Global,
    by: u32,
    handle: u32,
    bytes: &[u8],
) -> Result<Reply, NoMemory>
    requires clock { state.old.system.clock ≤ clock_limit }
    ensures ok { IfOk result
        (λ reply. (record { state = state.new; reply = reply })
        ≡ controlled state.old (control_answer state.old.system state.old.opens by handle bytes.now)) }
    ensures err { OnErr result (state.new ≡ state.old) }
    ensures sure { begins_in_place (first_message bytes.now) ≡ true → IsOk result }
{
    control(alloc, &mut state.system, &state.opens, by, handle, bytes)
}

/// The reply to the wait of a controller for a stop; `None`: the wait goes on.
fn wait_reply(state: &Machine, by: u32, handle: u32, until: u64, bytes: &[u8]) -> Option<Reply>
    ensures { result
        ≡ wait_reply state.now.system state.now.opens by handle until (is_interrupted state.now by) bytes.now }
{
    let interrupted = is_interrupted(state, by);
    control_wait(
        &state.system,
        &state.opens,
        by,
        handle,
        until,
        interrupted,
        bytes,
    )
}

/// Whether a call of a controller, of any number, is ready: the machine has an answer to it. Takes no memory.
#[tactic(auto, using(crate::proofs::WaitLemmas::wait_laws), unfolding(pr_model::specs::Calls::answer_to))]
pub fn ready(state: &Machine, by: u32, call: &Call) -> bool
    ensures { result ≡ is_some (answer_to state.now by call.now) }
{
    match call {
        Call::CtlWait {
            handle,
            until,
            bytes,
        } => wait_reply(state, by, *handle, *until, bytes.as_slice()).is_some(),
        Call::Poll { handles } => poll_reply(state, by, handles.as_slice()).is_some(),
        Call::Until { moment } => until_reply(state, by, *moment).is_some(),
        _ => true,
    }
}

/// Answers a call that is ready. Where memory runs out, the state is as it was; in a spawn it runs out only where the
/// reply could not have been a refusal but ENOMEM.
#[tactic(auto, using(crate::proofs::WaitLemmas::wait_laws), unfolding(pr_model::specs::Calls::answer_to))]
pub fn answer(state: &mut Machine, alloc: Global, by: u32, call: &Call) -> Result<Reply, NoMemory>
    requires by { by < controller_limit }
    requires clock { state.old.system.clock ≤ clock_limit }
    requires ready { is_some (answer_to state.old by call.now) ≡ true }
    requires lawful { IsLawfulSystem state.old.system }
    ensures ok { IfOk result (λ reply. answer_to state.old by call.now ≡ Some (record { state = state.new; reply = reply })) }
    ensures err { OnErr result (state.new ≡ state.old) }
    ensures sure { takes_no_memory call.now ≡ true → IsOk result }
    ensures memory { OnErr result (ForSome (answer_to state.old by call.now) (λ a. may_lack_memory call.now a.reply ≡ true)) }
{
    match call {
        Call::Open {
            pid,
            lwp,
            file,
            mode,
        } => Ok(open(
            state,
            Held {
                controller: by,
                pid: *pid,
                lwp: *lwp,
                file: *file,
                mode: *mode,
            },
        )),
        Call::Close { handle } => Ok(close(state, by, *handle)),
        Call::Ctl { handle, bytes } => write(state, alloc, by, *handle, bytes.as_slice()),
        Call::CtlWait {
            handle,
            until,
            bytes,
        } => {
            let reply = wait_reply(state, by, *handle, *until, bytes.as_slice()).unwrap();
            Ok(finish(state, by, reply))
        }
        Call::Read { handle, at, len } => read(state, alloc, by, *handle, *at, *len),
        Call::Poll { handles } => {
            let reply = poll_reply(state, by, handles.as_slice()).unwrap();
            Ok(finish(state, by, reply))
        }
        Call::Interrupt { controller } => Ok(interrupt(state, *controller)),
        Call::Spawn { program, held } => spawn(state, alloc, program, *held),
        Call::Kill { pid, sig } => Ok(kill(state, *pid, *sig)),
        Call::Until { moment } => {
            let reply = until_reply(state, by, *moment).unwrap();
            Ok(finish(state, by, reply))
        }
        Call::List => list(state, alloc),
    }
}
