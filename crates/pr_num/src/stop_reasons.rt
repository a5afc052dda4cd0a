ghost use Rattle.std.specs.Prelude.{◌≡◌, find};
ghost use Rattle.pr_num.specs.StopReasons.{stop_reasons, reason_number, reason_name, is_reason_named};
ghost use Rattle.pr_num.specs.Tables.{entry_at};

use crate::tables;

/// Why an lwp is stopped (proc(4), "pr_why"), with numbers of this project's own.
#[derive(Clone, Copy, Debug, PartialEq, Eq)]
pub enum StopReason {
    /// It was directed to stop.
    Requested = 1,
    /// A traced signal became its current one.
    Signalled = 2,
    /// It came to a traced system call.
    SysEntry = 3,
    /// It ended a traced system call.
    SysExit = 4,
    /// Its process is stopped by job control.
    JobControl = 5,
    /// It incurred a traced fault.
    Faulted = 6,
    /// Another lwp suspended it.
    Suspended = 7,
}

impl StopReason {
    /// Every reason, in the order of its number.
    pub const ALL: [StopReason; 7] = [
        StopReason::Requested,
        StopReason::Signalled,
        StopReason::SysEntry,
        StopReason::SysExit,
        StopReason::JobControl,
        StopReason::Faulted,
        StopReason::Suspended,
    ];

    /// The reason of a number, `None` exactly where it is not 1 to 7.
    pub fn from_number(n: u64) -> Option<StopReason>
        ensures { result ≡ entry_at stop_reasons n }
    {
        tables::entry_at(&StopReason::ALL, n)
    }

    /// The reason's number, 1 to 7.
    #[tactic(auto, unfolding(crate::specs::StopReasons::reason_number))]
    pub fn number(self) -> u64
        ensures { result ≡ reason_number self }
    {
        self as u64
    }

    /// The reason of a name, as `b"PR_REQUESTED"`; `None` exactly where no reason has that name.
    pub fn from_name(name: &[u8]) -> Option<StopReason>
        ensures { result ≡ find (is_reason_named name.now) stop_reasons }
    {
        StopReason::ALL
            .iter()
            .copied()
            .find(|reason| reason.is_named(name))
    }

    /// The reason's name, as `"PR_REQUESTED"`.
    #[tactic(auto, unfolding(crate::specs::StopReasons::reason_name))]
    pub fn name(self) -> &'static str
        ensures { result.now ≡ reason_name self }
    {
        match self {
            StopReason::Requested => "PR_REQUESTED",
            StopReason::Signalled => "PR_SIGNALLED",
            StopReason::SysEntry => "PR_SYSENTRY",
            StopReason::SysExit => "PR_SYSEXIT",
            StopReason::JobControl => "PR_JOBCONTROL",
            StopReason::Faulted => "PR_FAULTED",
            StopReason::Suspended => "PR_SUSPENDED",
        }
    }

    fn is_named(self, name: &[u8]) -> bool
        ensures { result ≡ is_reason_named name.now self }
    {
        name == self.name().as_bytes()
    }
}
