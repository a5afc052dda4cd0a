ghost use Rattle.std.specs.Prelude.{ℕ, List};
ghost use Rattle.pr_function_hides.specs.LiftedCopies.{CopiesFindNone, OpensOutOfCopies};
ghost use Rattle.pr_function_laws.specs.ReachedRuns.{IsReachedFunctionRun};
ghost use Rattle.pr_line.specs.declared.options.Options.{Options};
ghost use Rattle.pr_model.specs.State.{TracedState};
ghost use Rattle.pr_model.specs.declared.events.Entry.{Entry};

/// In each legal history of truss with functions, from a state that the machine reaches, in which controllers write
/// bytes, and in which no lwp of a process is at a fork, a vfork or an exec when the wait of its opening is granted:
/// none is marked as planted in a process that it traces where such a call is made there and granted, also while truss
/// leaves its processes, once a wait was interrupted; all is lifted where the status of a process tells that its memory
/// was replaced, or that a child has it too; and where truss leaves a process and its look at the lwps tells so, none
/// is marked there. Nothing else is asked of other controllers, nor of the stops from before truss came.
#[tactic(auto, using(crate::proofs::LeavingCopies::CopyHistory::copies_lifted))]
pub fn a_copy_finds_no_breakpoint()
    ensures { (n k : ℕ) (o : Options) (s : TracedState) (h : List Entry) → IsReachedFunctionRun n k o s h
        → OpensOutOfCopies k o s h → CopiesFindNone k o s h }
{}
