//! What an lwp stands on.
ghost use Rattle.std.specs.Prelude.{◌≡◌};
ghost use Rattle.pr_line.specs.Events.{result_of, named_call, stopped_call, event_for, event_of};

use pr_model::PC;
use pr_num::{Errno, Flt, Info, Sig, StopReason, Sysno};
use pr_rec::{Disposition, LwpStatus};

/// What an lwp stands on, as its status tells it (proc(4), "lwpstatus").
#[derive(Clone, Copy, Debug, PartialEq, Eq)]
pub enum Event {
    /// It has entered a system call.
    Entered {
        call: Sysno,
        arguments: [u64; 6],
    },
    /// A system call has ended.
    Left {
        call: Sysno,
        arguments: [u64; 6],
        result: Result<u64, Errno>,
    },
    /// It has taken a signal.
    Received {
        signal: Sig,
        disposition: Disposition,
        info: Info,
    },
    /// It has incurred a fault.
    Incurred {
        fault: Flt,
        pc: u64,
    },
}

/// What a call gave.
fn result_of(value: u64, errno: Option<Errno>) -> Result<u64, Errno>
    ensures { result ≡ result_of value errno }
{
    match errno {
        None => Ok(value),
        Some(errno) => Err(errno),
    }
}

/// The call that an lwp is stopped for.
fn stopped_call(status: &LwpStatus) -> Option<Sysno>
    ensures { result ≡ stopped_call status.now }
{
    let call = status.call?;
    if call.number() == status.what.number() {
        Some(call)
    } else {
        None
    }
}

/// What a stop tells.
fn event_for(status: &LwpStatus, reason: StopReason) -> Option<Event>
    ensures { result ≡ event_for status.now reason }
{
    match reason {
        StopReason::SysEntry => Some(Event::Entered {
            call: stopped_call(status)?,
            arguments: status.arguments,
        }),
        StopReason::SysExit => Some(Event::Left {
            call: stopped_call(status)?,
            arguments: status.arguments,
            result: result_of(status.result, status.errno),
        }),
        StopReason::Signalled => Some(Event::Received {
            signal: Sig::from_number(status.what.number())?,
            disposition: status.disposition,
            info: status.info,
        }),
        StopReason::Faulted => Some(Event::Incurred {
            fault: Flt::from_number(status.what.number())?,
            pc: status.regs[PC],
        }),
        StopReason::Requested | StopReason::JobControl | StopReason::Suspended => None,
    }
}

/// The event that an lwp stands on; `None` where it is not stopped, or where its stop is no event: on request, by job
/// control, by `lwp_suspend`, or for what its record does not have.
#[tactic(auto, unfolding(crate::specs::Events::event_of))]
pub fn event_of(status: &LwpStatus) -> Option<Event>
    ensures { result ≡ event_of status.now }
{
    event_for(status, status.why?)
}
