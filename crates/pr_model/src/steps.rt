ghost use Rattle.std.specs.Prelude.{◌≡◌, List};

use crate::Res;
use pr_num::{Flt, Name, Sig, Sysno};
use std::marker::Model;

/// A step of the untraced machine. Two numbers in front are a process's id and an lwp's.
#[derive(Clone, Copy, Debug, PartialEq, Eq)]
pub enum Step {
    /// An instruction was run.
    Exec(u32, u32),
    /// A system call was made.
    Call(u32, u32, Sysno, Res),
    /// The lwp fell asleep in a system call.
    Sleep(u32, u32, Sysno),
    /// The sleep in a system call is over, and so is the call.
    Finish(u32, u32, Sysno, Res),
    /// A fault was incurred.
    Fault(u32, u32, Flt),
    /// A pending signal became the current one.
    Take(u32, u32, Sig),
    /// The current signal was acted on.
    Act(u32, u32, Sig),
    /// A process of a program was made from outside.
    Spawn(Name),
    /// A signal was sent from outside, to a process.
    Kill(u32, u64),
    /// A millisecond passed.
    Tick,
}

/// Steps of the untraced machine in their order, seen by contracts as their list.
#[derive(Drop)]
pub struct Steps {
    items: Vec<Step>,
}

impl Model for Steps {
    ghost use Rattle.std.specs.Prelude.{List};
    ghost use Rattle.pr_model.specs.declared.steps.Step.{Step};

    ghost Value = { List Step };

    ghost view = { λ a. a.items.items };
}

impl Steps {
    /// The steps of a vector. Takes no memory.
    pub fn from_vec(items: Vec<Step>) -> Steps
        ensures { result ≡ items.items }
    {
        Steps { items }
    }

    /// The steps, in their order.
    pub fn as_slice(&self) -> &[Step]
        ensures { result.now ≡ self.now }
    {
        &self.items
    }
}

/// The calls, faults and taken signals of a run in their order, seen by contracts as their list.
#[derive(Drop)]
pub struct Trace {
    items: Vec<Step>,
}

impl Model for Trace {
    ghost use Rattle.std.specs.Prelude.{List};
    ghost use Rattle.pr_model.specs.declared.steps.Step.{Step};

    ghost Value = { List Step };

    ghost view = { λ a. a.items.items };
}

impl Trace {
    /// The trace of a vector. Takes no memory.
    pub fn from_vec(items: Vec<Step>) -> Trace
        ensures { result ≡ items.items }
    {
        Trace { items }
    }

    /// The steps of which the trace tells, in their order.
    pub fn as_slice(&self) -> &[Step]
        ensures { result.now ≡ self.now }
    {
        &self.items
    }
}
