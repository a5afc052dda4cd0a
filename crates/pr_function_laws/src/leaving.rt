ghost use Rattle.std.specs.Prelude.{ℕ, List};
ghost use Rattle.pr_line.specs.declared.options.Options.{Options};
ghost use Rattle.pr_model.specs.State.{TracedState};
ghost use Rattle.pr_model.specs.declared.events.Entry.{Entry};
ghost use Rattle.pr_function_laws.specs.Leaving.{LeavesItsProcesses};
ghost use Rattle.pr_function_laws.specs.Opened.{IsFunctionRun};

/// In each legal history of truss with functions: once it is interrupted it leaves the processes that it traces then,
/// one after another, and does nothing else. It directs the process to stop, waits for that, and asks again as often as
/// it is interrupted; it looks at the lwps once, lifts all breakpoints that stand, clears the fault where what it read
/// tells of one of its own, and closes the four files. A process that has ended it closes at once, and one whose
/// opening had not come to its stop too.
#[tactic(auto, using(crate::proofs::LeavingProcesses::LeavingLaws::leaving))]
pub fn an_interrupted_truss_lifts_clears_and_closes()
    ensures { (n k : ℕ) (o : Options) (s : TracedState) (h : List Entry) → IsFunctionRun n k o s h
        → LeavesItsProcesses k o h }
{}
