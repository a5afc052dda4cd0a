ghost use Rattle.std.specs.Prelude.{◌≡◌, []};
ghost use Rattle.pr_commands.specs.Answers.{end_status};
ghost use Rattle.pr_commands.specs.Statuses.{number};
ghost use Rattle.pr_commands.specs.declared.outcomes.Status.TheVariants.{OutOfMemory};

use pr_model::History;
use pr_num::NoMemory;
use pr_world::End;
use std::alloc::Global;

/// How a call of the program ended.
#[derive(Clone, Copy)]
pub enum Status {
    /// The work is done; of a run: no actor can move, and every controller has finished.
    Done = 0,
    /// The words ask for nothing.
    Usage = 1,
    /// The input is refused.
    Refused = 2,
    /// The history has all its entries, and an actor could move still.
    Spent = 3,
    /// No actor can move, and a controller has not finished.
    Stuck = 4,
    /// A read failed.
    ReadFailed = 5,
    /// A write failed.
    WriteFailed = 6,
    /// Memory ran out.
    OutOfMemory = 7,
    /// An entry of a history that was judged is not legal.
    NotLegal = 8,
}

/// The number of a status.
#[tactic(auto, unfolding(crate::specs::Statuses::number))]
pub fn number(status: Status) -> u8
    ensures { result ≡ number status }
{
    status as u8
}

/// How a call of the program ended, and the history of its run; that is empty where none was made.
#[derive(Drop)]
pub struct Ending {
    pub status: Status,
    pub history: History,
}

/// An end that leaves no history.
pub fn without_history(alloc: Global, status: Status) -> Ending
    ensures status { result.status ≡ status }
    ensures history { result.history.entries ≡ [] }
{
    Ending {
        status,
        history: History::new(alloc),
    }
}

/// An end where memory ran out, with the history as far as it was made. Takes the refusal where there is one.
pub fn out_of_memory(_error: NoMemory, history: History) -> Ending
    ensures status { result.status ≡ OutOfMemory }
    ensures history { result.history.entries ≡ history.entries }
{
    Ending {
        status: Status::OutOfMemory,
        history,
    }
}

/// The status of a run that ended so.
#[tactic(auto, unfolding(crate::specs::Answers::end_status))]
pub fn end_status(end: End) -> Status
    ensures { result ≡ end_status end }
{
    match end {
        End::Quiet => Status::Done,
        End::Spent => Status::Spent,
        End::Stuck => Status::Stuck,
    }
}
