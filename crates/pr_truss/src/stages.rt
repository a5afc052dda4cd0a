//! Where truss stands: the call that it made, whose reply comes next.
use pr_num::Name;
use pr_rec::LwpStatus;

/// The step of truss whose reply comes next. A place is that of a process in the list of those that it traces.
#[derive(Clone, Copy)]
pub enum Stage {
    /// It makes the process of a program, which is directed to stop before it runs.
    Spawning {
        program: Name,
    },
    /// It opens the control file of a process that it was given, or made.
    OpeningControl {
        pid: u32,
    },
    /// It goes on with the opening of that process.
    Opening {
        place: usize,
        step: OpeningStep,
    },
    /// It waits for a process that stops or ends.
    Polling,
    /// It reads the status of the process that the poll named.
    ReadingStatus {
        place: usize,
    },
    /// It reads the memory that the line of this lwp's event asks for.
    ReadingText {
        place: usize,
        lwp: LwpStatus,
        at: u64,
        len: u64,
    },
    /// It opens the control file of the child of a fork.
    OpeningChildControl {
        parent: usize,
        child: u32,
    },
    /// It goes on with the opening of that child.
    OpeningChild {
        parent: usize,
        place: usize,
        step: ChildStep,
    },
    /// It runs a process.
    Running {
        place: usize,
    },
    /// It closes the files of a process, the one that was opened last first.
    Closing {
        place: usize,
        next: AfterClosing,
    },
    /// It leaves the first process: the process's children are no longer traced.
    Unfollowing,
    /// It leaves the first process, and looks whether an event of it was not read.
    ReadingLwps,
    /// It leaves the first process, and sets the child free of a fork that was not read before.
    FreeingChild {
        child: u32,
        step: FreeingStep,
    },
    /// It has finished.
    Finished,
}

/// A step of the opening of a process that truss was given, once its control file is open.
#[derive(Clone, Copy)]
pub enum OpeningStep {
    OpenStatus,
    OpenLstatus,
    OpenMemory,
    /// All modes are cleared.
    ClearModes,
    /// It is to run when its last writable file is closed.
    SetRelease,
    /// It is directed to stop.
    Stop,
    /// The wait for that stop.
    AwaitStop { until: u64 },
    /// The old stops are counted.
    ReadLwps,
    TraceSignals,
    TraceFaults,
    TraceEntries,
    TraceExits,
    /// Its children are to be traced too.
    Follow,
    /// It runs.
    Start,
}

/// A step of the opening of a child, once its control file is open.
#[derive(Clone, Copy)]
pub enum ChildStep {
    /// It is to run when its last writable file is closed.
    SetRelease,
    OpenStatus,
    OpenLstatus,
    OpenMemory,
    /// It runs.
    Start,
}

/// How a child is set free that nobody will trace.
#[derive(Clone, Copy)]
pub enum FreeingStep {
    OpenControl,
    /// It is to run when its last writable file is closed.
    SetRelease { control: u32 },
    Close { control: u32 },
}

/// What comes after the last file of a process was closed.
#[derive(Clone, Copy)]
pub enum AfterClosing {
    /// The next process is opened.
    OpenNext,
    /// The poll, or the next process that is left.
    GoOn,
    /// The parent of the process runs.
    RunParent { parent: usize },
}
