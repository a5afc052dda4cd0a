use crate::Functions;
use pr_num::{FltSet, Handles, Name, SigSet, SysSet};

/// What truss(1) is asked for.
#[derive(Drop)]
pub struct Options {
    /// Children of fork are traced too (`-f`).
    pub follow: bool,
    /// Lines have the lwp (`-l`).
    pub lwps: bool,
    /// Events are counted, and no line is shown (`-c`).
    pub count: bool,
    /// The calls to show (`-t`).
    pub calls: SysSet,
    /// The signals to show (`-s`).
    pub signals: SigSet,
    /// The faults to show (`-m`).
    pub faults: FltSet,
    /// The processes to trace (`-p`); none where a program is to be run.
    pub pids: Handles,
    /// The program to run, where no process is named.
    pub program: Option<Name>,
    /// The functions whose calls are shown (`-u`).
    pub functions: Functions,
}
