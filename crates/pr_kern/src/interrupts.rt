//! Interrupts of controllers, and the waits for the clock and for several handles that they end (poll(2)).
ghost use Rattle.std.specs.Prelude.{◌≡◌, ◌<◌, find};
ghost use Rattle.std.specs.List.{list_all};
ghost use Rattle.std.specs.Option.{option_copied};
ghost use Rattle.pr_num.specs.Limits.{controller_limit};
ghost use Rattle.pr_model.specs.Calls.{Answer, control_ready, interrupt_answer, is_handle_ready, is_interrupted, is_open_by, is_polled_ready, waited};
ghost use Rattle.pr_model.specs.ControlMessages.{target_of};
ghost use Rattle.pr_kern.specs.Waits.{poll_reply, until_reply};

use crate::Machine;
use pr_ctl::{is_control, own, target, target_stopped};
use pr_model::{Held, Reply};
use pr_num::Errno;
use pr_num::limits::{CONTROLLER_LIMIT, HANDLE_LIMIT};
use pr_open::Opens;
use pr_proc::{Sys, live};

/// Whether a controller was interrupted and has not seen it yet. There are 64 controllers at most.
#[tactic(auto, using(crate::proofs::InterruptLemmas::interrupt_laws))]
pub fn is_interrupted(state: &Machine, by: u32) -> bool
    ensures { result ≡ is_interrupted state.now by }
{
    let interrupted = state.interrupted;
    by < u64::BITS && (interrupted >> by) & 1 == 1
}

/// What a wait that is over leaves: a reply of EINTR is how a controller sees that it was interrupted.
pub fn finish(state: &mut Machine, by: u32, reply: Reply) -> Reply
    requires { by < controller_limit }
    ensures { (record { state = state.new; reply = result }) ≡ waited state.old by reply }
{
    // only an interrupted wait gets EINTR, so that its bit is set
    if let Reply::Fail(Errno::Intr) = reply {
        state.interrupted = state.interrupted.saturating_sub(1 << by);
    }
    reply
}

/// Interrupts a controller: its next wait fails (EINVAL where no controller can have this number).
#[tactic(auto, unfolding(pr_model::specs::Calls::interrupt_answer, pr_num::specs::Sets::with_number))]
pub fn interrupt(state: &mut Machine, controller: u32) -> Reply
    ensures { (record { state = state.new; reply = result }) ≡ interrupt_answer state.old controller }
{
    if controller as usize >= CONTROLLER_LIMIT {
        return Reply::Fail(Errno::Inval);
    }
    state.interrupted |= 1 << controller;
    Reply::Done
}

/// The reply to a wait for a moment of the clock; `None`: it has not come.
#[tactic(auto, unfolding(crate::specs::Waits::until_reply))]
pub fn until_reply(state: &Machine, by: u32, moment: u64) -> Option<Reply>
    ensures { result ≡ until_reply state.now by moment }
{
    if is_interrupted(state, by) {
        return Some(Reply::Fail(Errno::Intr));
    }
    if moment <= state.system.clock {
        return Some(Reply::Done);
    }
    None
}

/// Whether what a control handle stands for has ended or is stopped on an event of interest.
fn is_control_ready(sys: &Sys, held: Held) -> bool
    ensures { result ≡ control_ready held (target_of sys.now held) }
{
    match target(sys, held) {
        None => true,
        Some(process) => target_stopped(held, process),
    }
}

/// Whether a handle is ready: of a control file where what it stands for has ended or is stopped on an event of
/// interest, and of any other where its process has ended.
#[tactic(auto, unfolding(pr_model::specs::Calls::is_handle_ready))]
fn is_handle_ready(sys: &Sys, held: Held) -> bool
    ensures { result ≡ is_handle_ready sys.now held }
{
    if is_control(held.file) {
        is_control_ready(sys, held)
    } else {
        live(sys, held.pid).is_none()
    }
}

#[tactic(auto, unfolding(pr_model::specs::Calls::is_polled_ready))]
fn is_polled_ready(state: &Machine, by: u32, handle: u32) -> bool
    ensures { result ≡ is_polled_ready state.now by handle }
{
    match own(&state.opens, by, handle) {
        None => false,
        Some(held) => is_handle_ready(&state.system, held),
    }
}

/// The first ready handle of a list.
fn first_ready<'a>(state: &Machine, by: u32, handles: &'a [u32]) -> Option<&'a u32>
    ensures { option_copied result ≡ find (is_polled_ready state.now by) handles.now }
{
    handles
        .iter()
        .find(|handle| is_polled_ready(state, by, **handle))
}

fn are_open(opens: &Opens, by: u32, handles: &[u32]) -> bool
    ensures { result ≡ list_all (is_open_by opens.now by) handles.now }
{
    handles
        .iter()
        .all(|handle| own(opens, by, *handle).is_some())
}

/// The reply to a wait for the first ready handle of a list (EBADF, EINVAL for none or more than 1,024, EINTR); `None`:
/// none is ready.
#[tactic(auto, unfolding(crate::specs::Waits::poll_reply))]
pub fn poll_reply(state: &Machine, by: u32, handles: &[u32]) -> Option<Reply>
    ensures { result ≡ poll_reply state.now by handles.now }
{
    if !are_open(&state.opens, by, handles) {
        return Some(Reply::Fail(Errno::Badf));
    }
    if handles.is_empty() || handles.len() > HANDLE_LIMIT {
        return Some(Reply::Fail(Errno::Inval));
    }
    if is_interrupted(state, by) {
        return Some(Reply::Fail(Errno::Intr));
    }
    match first_ready(state, by, handles) {
        None => None,
        Some(handle) => Some(Reply::Ready(*handle)),
    }
}
