//! Waits for a stop, which some control messages ask for (proc(4), "PCSTOP").
ghost use Rattle.std.specs.Prelude.{◌≡◌};
ghost use Rattle.pr_model.specs.ControlMessages.{wait_over, wait_reply, waiting_reply, waits};

use crate::messages::first_message;
use crate::targets::{control_handle, target, target_stopped};
use pr_model::{Held, Reply};
use pr_num::{Errno, Message};
use pr_open::Opens;
use pr_proc::{Proc, Sys};

/// Whether a message waits.
fn waits(message: Message) -> bool
    ensures { result ≡ waits message }
{
    match message {
        Message::Stop | Message::Wstop | Message::Twstop { .. } => true,
        _ => false,
    }
}

/// Whether a wait is over: what it waits for is stopped on an event of interest, or its end has come.
fn wait_over(sys: &Sys, held: Held, process: &Proc, until: u64) -> bool
    ensures { result ≡ wait_over sys.now held process.now until }
{
    target_stopped(held, process) || (until != 0 && until <= sys.clock)
}

/// The reply to a wait for a process that a message of so many bytes asked for; `None`: the wait goes on.
fn waiting_reply(
    sys: &Sys,
    held: Held,
    process: &Proc,
    until: u64,
    interrupted: bool,
    length: u64,
) -> Option<Reply>
    ensures { result ≡ waiting_reply sys.now held process.now until interrupted length }
{
    if held.pid == 0 {
        return Some(Reply::Fail(Errno::Busy));
    }
    if interrupted {
        return Some(Reply::Fail(Errno::Intr));
    }
    if wait_over(sys, held, process, until) {
        return Some(Reply::Used(length));
    }
    None
}

/// The reply to the wait that a message asked for, of a controller that was interrupted or not; `until` is the clock at
/// which the wait ends in any case, 0 for no end. The refusals come in the order: EBADF, ENOENT, EINVAL for bytes that
/// begin with no message that waits, process 0, EINTR. `None`: the wait goes on. Takes no memory.
#[tactic(auto, unfolding(pr_model::specs::ControlMessages::wait_reply))]
pub fn control_wait(
    sys: &Sys,
    opens: &Opens,
    by: u32,
    handle: u32,
    until: u64,
    interrupted: bool,
    bytes: &[u8],
) -> Option<Reply>
    ensures { result ≡ wait_reply sys.now opens.now by handle until interrupted bytes.now }
{
    let Some(held) = control_handle(opens, by, handle) else {
        return Some(Reply::Fail(Errno::Badf));
    };
    let Some(process) = target(sys, held) else {
        return Some(Reply::Fail(Errno::Noent));
    };
    match first_message(bytes) {
        Ok((message, length)) if waits(message) => {
            waiting_reply(sys, held, process, until, interrupted, length as u64)
        }
        _ => Some(Reply::Fail(Errno::Inval)),
    }
}
