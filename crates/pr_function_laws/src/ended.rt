ghost use Rattle.std.specs.Prelude.{ℕ, List};
ghost use Rattle.pr_line.specs.declared.options.Options.{Options};
ghost use Rattle.pr_model.specs.State.{TracedState};
ghost use Rattle.pr_model.specs.declared.events.Entry.{Entry};
ghost use Rattle.pr_function_laws.specs.EndedProcesses.{ClosesAllThatEndedOf};
ghost use Rattle.pr_function_laws.specs.Opened.{IsFunctionRun};

/// In each legal history of truss with functions: where it is told that a process has ended, by whatever call to a
/// handle of the process, it closes each file of it that it has open, before it calls anything else; but for an entry
/// in which truss, not interrupted before, lifts a breakpoint of a process of which it has no hold. Of such a lift this
/// says nothing: where the opening was refused, truss goes on with its lifts.
#[tactic(auto, using(crate::proofs::Holding::EndedFiles::ended_files))]
pub fn it_closes_all_files_of_what_has_ended()
    ensures { (n k : ℕ) (o : Options) (s : TracedState) (h : List Entry) → IsFunctionRun n k o s h
        → ClosesAllThatEndedOf k o s h }
{}
