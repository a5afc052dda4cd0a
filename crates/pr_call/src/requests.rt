//! A system call that an lwp makes, and what comes of one.
use pr_model::Res;
use pr_num::{Sig, SigSet, Sysno};

/// A system call of an lwp: the ids of its process and its own, when its sleep in the call began, or would begin, and
/// the call with its six arguments.
#[derive(Clone, Copy, Debug, PartialEq, Eq)]
pub struct Request {
    pub pid: u32,
    pub lwp: u32,
    pub since: u64,
    pub call: Sysno,
    pub args: [u64; 6],
}

/// What came of a system call.
#[derive(Clone, Copy, Debug, PartialEq, Eq)]
pub enum Performed {
    /// It gave a result, which is not stored yet.
    Done(Res),
    /// Its lwp sleeps in it; nothing changed.
    Sleep,
    /// It ended its lwp or its process, and gave nothing.
    Ended,
}

/// What a call changes of its own process, where that is little.
#[derive(Clone, Copy, Debug, PartialEq, Eq)]
pub enum Change {
    /// Its lwp holds these signals.
    Held(SigSet),
    /// Its process has another disposition of a signal.
    Disposition(Sig, u64),
    /// Its lwp goes back to what its last handler interrupted.
    Resumed,
    /// The lwp of this id is suspended, or goes on.
    Suspended(u32, bool),
}

/// What a call does that changes little: all that is to be known of it before anything changes.
#[derive(Clone, Copy, Debug, PartialEq, Eq)]
pub enum Effect {
    /// It gives a result, and may change its process.
    Does(Res, Option<Change>),
    /// Its lwp sleeps in it.
    Sleeps,
    /// It ends its process, with this wait status.
    Ends(u64),
    /// It ends its lwp, and its process with the last one.
    EndsLwp,
}
