ghost use Rattle.std.specs.Prelude.{ℕ, List};
ghost use Rattle.pr_line.specs.declared.options.Options.{Options};
ghost use Rattle.pr_model.specs.State.{TracedState};
ghost use Rattle.pr_model.specs.declared.events.Entry.{Entry};
ghost use Rattle.pr_function_laws.specs.ListedEvents.{IsStillWhileOld, ListsItsEvents};
ghost use Rattle.pr_function_laws.specs.ReachedRuns.{IsReachedFunctionRun};

/// In each legal history of truss with functions, from a state that the machine reaches, in which controllers write
/// bytes, whatever programs and others do: as long as truss counts stops of a process that are left and stood before it
/// came, the process stands still, until truss is interrupted or closes its files.
#[tactic(auto, using(crate::proofs::Listing::OldStops::old_stops))]
pub fn a_process_stands_still_while_old_stops_are_left()
    ensures { (n k : ℕ) (o : Options) (s : TracedState) (h : List Entry) → IsReachedFunctionRun n k o s h
        → (pid : ℕ) → IsStillWhileOld k o s h pid }
{}

/// In each such history, and also where truss is interrupted and leaves its processes: the events that it has shown of
/// a process are, as a list, those that came while it watched the process, that the options select, and that are no
/// faults of its own. The last one may be missing, for two reasons alone: it is unread in a process that lives and that
/// truss watches, or SIGKILL ended the process; and truss got no bytes of the status of the process, or of the statuses
/// of its lwps, since the event came. Once truss has finished, the first is no reason any more.
pub fn in_each_history_events_are_shown()
    ensures { (n k : ℕ) (o : Options) (s : TracedState) (h : List Entry) → IsReachedFunctionRun n k o s h
        → (pid : ℕ) → ListsItsEvents k o s h pid }
{}
