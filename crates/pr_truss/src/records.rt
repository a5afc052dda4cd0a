//! What truss reads in the records of processes.
ghost use Rattle.std.specs.Prelude.{◌≡◌, ◌≤◌, ◌<◌, ◌+◌, ◌^◌, length, slice_get, option_map, IfSome};
ghost use Rattle.pr_num.specs.Records.{lwpstatus_size};
ghost use Rattle.pr_truss.specs.Records.{lwp_in, status_lwp, lstatus_lwps, Sees, noted, event_stops, is_on_event, has_ended_fork, child_of};

use pr_codec::{WORD, word};
use pr_line::event_of;
use pr_num::StopReason;
use pr_rec::{LwpStatus, Status};

/// How many lwps of a process stand on events, and the first of them.
#[derive(Clone, Copy)]
pub struct Stops {
    pub count: u64,
    pub first: Option<LwpStatus>,
}

impl Stops {
    const NONE: Stops = Stops {
        count: 0,
        first: None,
    };
}

/// The lwp with whose status bytes begin; `None` where they begin with none.
#[tactic(auto, unfolding(crate::specs::Records::lwp_in))]
fn lwp_in(bytes: &[u8]) -> Option<LwpStatus>
    ensures value { result ≡ lwp_in bytes.now }
    ensures size { IfSome result (λ _. lwpstatus_size ≤ length bytes.now) }
{
    match LwpStatus::decode(bytes) {
        Ok(lwp) => Some(lwp),
        Err(_) => None,
    }
}

/// The representative lwp of the status of a process; `None` where the bytes begin with none.
#[tactic(auto, unfolding(crate::specs::Records::status_lwp))]
pub(crate) fn status_lwp(bytes: &[u8]) -> Option<LwpStatus>
    ensures { result ≡ status_lwp bytes.now }
{
    match Status::decode(bytes) {
        Ok(status) => Some(status.lwp),
        Err(_) => None,
    }
}

/// Whether an lwp stands on an event: at a system call, a signal or a fault.
#[tactic(auto, unfolding(crate::specs::Records::is_on_event))]
pub(crate) fn is_on_event(lwp: &LwpStatus) -> bool
    ensures { result ≡ is_on_event lwp.now }
{
    event_of(lwp).is_some()
}

impl Stops {
    /// With one lwp more.
    fn noted(self, lwp: &LwpStatus) -> Stops
        requires { self.count + 1 < 2 ^ 64 }
        ensures { result ≡ noted self lwp.now }
    {
        if is_on_event(lwp) {
            Stops {
                count: self.count + 1,
                first: Some(self.first.unwrap_or(*lwp)),
            }
        } else {
            self
        }
    }
}

/// The lwps that stand on events, of a record that is nothing but the lwps of a process.
#[tactic(auto, unfolding(crate::specs::Records::lstatus_lwps))]
fn stops_in(bytes: &[u8]) -> Option<Stops>
    ensures { Sees result (lstatus_lwps bytes.now) }
{
    let count = word(bytes, 0).ok()?;
    let mut rest = &bytes[WORD..];
    let mut stops = Stops::NONE;
    for i in 0..count {
        let lwp = lwp_in(rest)?;
        stops = stops.noted(&lwp);
        rest = &rest[LwpStatus::SIZE..];
    }
    if rest.is_empty() { Some(stops) } else { None }
}

/// The lwps that stand on events; a record that is none of lwps has none.
#[tactic(auto, unfolding(crate::specs::Records::event_stops))]
pub(crate) fn event_stops(bytes: Option<&[u8]>) -> Stops
    ensures count { result.count ≡ length (event_stops (option_map (λ b. b.now) bytes.entry)) }
    ensures first { result.first ≡ slice_get (event_stops (option_map (λ b. b.now) bytes.entry)) 0 }
{
    match bytes {
        Some(bytes) => stops_in(bytes).unwrap_or(Stops::NONE),
        None => Stops::NONE,
    }
}

/// Whether an lwp stands at the exit of a call that makes a child, and has a value.
#[tactic(auto, unfolding(crate::specs::Records::has_ended_fork))]
fn has_ended_fork(lwp: &LwpStatus) -> bool
    ensures { result ≡ has_ended_fork lwp.now }
{
    matches!(lwp.why, Some(StopReason::SysExit))
        && matches!(lwp.call, Some(call) if call.is_fork_call())
        && lwp.errno.is_none()
}

/// The child that an lwp has just made.
#[tactic(auto, unfolding(crate::specs::Records::child_of))]
pub(crate) fn child_of(lwp: &LwpStatus) -> Option<u32>
    ensures { result ≡ child_of lwp.now }
{
    if has_ended_fork(lwp) && lwp.result != 0 && lwp.result <= u64::from(u32::MAX) {
        Some(lwp.result as u32)
    } else {
        None
    }
}
