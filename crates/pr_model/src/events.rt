use crate::{Call, Reply};
use pr_num::{Flt, Sig, Sysno};

/// Who makes a step of a history.
#[derive(Clone, Copy, Debug, PartialEq, Eq)]
pub enum Actor {
    /// The controller of this number.
    Controller(u32),
    /// The lwp of this process and this lwp id.
    Lwp(u32, u32),
    Clock,
}

/// What a system call gave.
#[derive(Clone, Copy, Debug, PartialEq, Eq)]
pub enum Res {
    Value(u64),
    Error(pr_num::Errno),
    /// The call ended its lwp or its process, and so gave nothing.
    Ended,
}

/// How a signal was acted on.
#[derive(Clone, Copy, Debug, PartialEq, Eq)]
pub enum How {
    /// Its handler runs.
    Caught,
    /// It was dropped.
    Ignored,
    /// It stopped its process by job control.
    JobStop,
    /// It ended its process.
    Died,
}

/// What an lwp did in one turn.
#[derive(Clone, Copy, Debug, PartialEq, Eq)]
pub enum Did {
    /// It stopped as it was directed to.
    Stopped,
    /// It ran an instruction.
    Ran,
    /// It came to a system call.
    Entered(Sysno),
    /// It made the call that it had come to.
    Made(Sysno, Res),
    /// It fell asleep in the call that it had come to.
    Slept(Sysno),
    /// Its sleep in a call is over, and so is the call.
    Woke(Sysno, Res),
    /// It went back from the call to its program.
    Returned(Sysno),
    /// It incurred a fault.
    Faulted(Flt),
    /// The signal of its fault became pending.
    Posted(Flt),
    /// A pending signal became its current one.
    Took(Sig),
    /// Its current signal was acted on.
    Acted(Sig, How),
}

/// One turn of an lwp.
#[derive(Clone, Copy, Debug, PartialEq, Eq)]
pub struct Turned {
    pub did: Did,
    /// Whether the lwp met something that is traced in its process, and stopped on it.
    pub stop: bool,
}

/// What an actor did in one step.
#[derive(Drop)]
pub enum Act {
    /// A controller made a call and got a reply.
    Call(Call, Reply),
    /// An lwp had a turn.
    Turn(Turned),
    /// The clock came to this millisecond.
    Tick(u64),
}

/// One step of a history.
#[derive(Drop)]
pub struct Entry {
    pub actor: Actor,
    pub act: Act,
}
