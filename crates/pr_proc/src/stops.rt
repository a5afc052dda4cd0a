//! What an lwp shows of standing still, as numbers.
ghost use Rattle.std.specs.Prelude.{◌≡◌};
ghost use Rattle.pr_num.specs.StopReasons.{reason_number};
ghost use Rattle.pr_model.specs.Statuses.{reason_of_stop, what_of_stop};
ghost use Rattle.pr_model.specs.Stops.{shown};
ghost use Rattle.pr_proc.specs.Shows.{numbers_of, shows};

use crate::{Lwp, Proc};
use pr_model::Stop;
use pr_num::{Sig, StopReason};

/// The numbers of a stop on an event of interest.
fn numbers_of_stop(stop: Stop) -> (u64, u64)
    ensures { result ≡ (reason_number (reason_of_stop stop), what_of_stop stop) }
{
    match stop {
        Stop::Requested => (StopReason::Requested.number(), 0),
        Stop::Signalled(signal) => (StopReason::Signalled.number(), signal.number()),
        Stop::SysEntry(call) => (StopReason::SysEntry.number(), call.number()),
        Stop::SysExit(call) => (StopReason::SysExit.number(), call.number()),
        Stop::Faulted(fault) => (StopReason::Faulted.number(), fault.number()),
    }
}

#[tactic(auto, unfolding(pr_model::specs::Stops::shown, pr_model::specs::Statuses::reason_shown, pr_model::specs::Statuses::what_shown))]
fn numbers_shown(job: Option<Sig>, lwp: &Lwp) -> Option<(u64, u64)>
    ensures { result ≡ numbers_of (shown job lwp.now) }
{
    if let Some(stop) = lwp.control.stop {
        return Some(numbers_of_stop(stop));
    }
    if lwp.suspended {
        return Some((StopReason::Suspended.number(), 0));
    }
    match job {
        Some(signal) => Some((StopReason::JobControl.number(), signal.number())),
        None => None,
    }
}

/// Why an lwp of a process stands still, and what for, by their numbers (proc(4), "pr_why" and "pr_what"); `None`
/// exactly where it does not stand still, or no lwp has the id.
pub fn shows(process: &Proc, lwp: u32) -> Option<(u64, u64)>
    ensures { result ≡ shows process.now lwp }
{
    match process.lwps.get(lwp) {
        Some(lwp) => numbers_shown(process.job_stop, lwp),
        None => None,
    }
}
