use pr_num::{Flt, Sig, Sysno};

/// Why an lwp stands still on an event of interest (proc(4), "lwpstatus").
#[derive(Clone, Copy, Debug, PartialEq, Eq)]
pub enum Stop {
    /// PR_REQUESTED: it was directed to stop.
    Requested,
    /// PR_SIGNALLED: a traced signal became its current one.
    Signalled(Sig),
    /// PR_SYSENTRY: it came to a traced system call.
    SysEntry(Sysno),
    /// PR_SYSEXIT: it ended a traced system call.
    SysExit(Sysno),
    /// PR_FAULTED: it incurred a traced fault.
    Faulted(Flt),
}

/// What an lwp shows of standing still.
#[derive(Clone, Copy, Debug, PartialEq, Eq)]
pub enum Shown {
    /// It stands on an event of interest.
    Event(Stop),
    /// PR_SUSPENDED: another lwp suspended it.
    Suspended,
    /// PR_JOBCONTROL: this signal stopped its process.
    JobControl(Sig),
}

/// Where an lwp may meet something that is traced.
#[derive(Clone, Copy, Debug, PartialEq, Eq)]
pub enum Point {
    /// This signal became its current one.
    Signal(Sig),
    /// It incurred this fault.
    Fault(Flt),
    /// It came to this system call.
    Entry(Sysno),
    /// It ended this system call.
    Exit(Sysno),
}
