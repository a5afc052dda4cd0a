ghost use Rattle.std.specs.Prelude.{ℕ, List};
ghost use Rattle.pr_line.specs.declared.options.Options.{Options};
ghost use Rattle.pr_model.specs.State.{TracedState};
ghost use Rattle.pr_model.specs.declared.events.Entry.{Entry};
ghost use Rattle.pr_function_laws.specs.EventsRead.{EventsAreRead};
ghost use Rattle.pr_function_laws.specs.OneEvent.{HasOneEventEach};
ghost use Rattle.pr_function_laws.specs.ReachedRuns.{IsReachedFunctionRun};

/// In each legal history of truss with functions, from a state that the machine reaches, in which controllers write
/// bytes: from the end of the opening of a process, until truss is interrupted or closes its files, at most one lwp of
/// it stands on an event that it met, and then each other one is held; but where stops are left that stood before truss
/// came. And from the poll that names the process, until truss has run it, nothing of it moves. Once truss was
/// interrupted, so it is of each process whose opening had come to its stop until truss has looked at it for the last
/// time; and from then on, until truss closes its control file, nothing of it moves.
#[tactic(auto, using(crate::proofs::LeavingProcesses::LeavingHolds::held_open))]
pub fn at_most_one_event_is_unread()
    ensures { (n k : ℕ) (o : Options) (s : TracedState) (h : List Entry) → IsReachedFunctionRun n k o s h
        → HasOneEventEach k o s h }
{}

/// In each legal history of a truss with `-u`, from a state that the machine reaches: an event of a process that truss
/// has opened, which its options select, is told by the next read of the status of the process, if the process lives
/// then, once no stop of it is left that stood before truss came, and as long as truss is not interrupted.
#[tactic(auto, using(crate::proofs::Pending::EventReads::event_reads))]
pub fn each_event_is_told_by_the_next_read()
    ensures { (n k : ℕ) (o : Options) (s : TracedState) (h : List Entry) → IsReachedFunctionRun n k o s h
        → EventsAreRead k o s h }
{}
