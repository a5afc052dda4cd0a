ghost use Rattle.std.specs.Prelude.{ℕ, List};
ghost use Rattle.pr_function_hides.specs.LiftedCopies.{OpensOutOfCopies};
ghost use Rattle.pr_function_hides.specs.Replacing.{WritesNoneOnceReplaced};
ghost use Rattle.pr_function_laws.specs.ReachedRuns.{IsReachedFunctionRun};
ghost use Rattle.pr_line.specs.declared.options.Options.{Options};
ghost use Rattle.pr_model.specs.State.{TracedState};
ghost use Rattle.pr_model.specs.declared.events.Entry.{Entry};

/// In each legal history of truss with functions, from a state that the machine reaches, in which controllers write
/// bytes, and in which no lwp of a process is at a fork, a vfork or an exec when the wait of its opening is granted:
/// once a vfork or an exec was granted in a process that truss has opened whole, and of which it does not close the
/// files, truss sends no PCWRITE to that process any more, as long as the process lives and truss has not been
/// interrupted. So it plants no breakpoint there.
#[tactic(auto, using(crate::proofs::Replacing::ReplacedWalk::writes_none))]
pub fn after_a_replacement_truss_writes_nothing()
    ensures { (n k : ℕ) (o : Options) (s : TracedState) (h : List Entry) → IsReachedFunctionRun n k o s h
        → OpensOutOfCopies k o s h → WritesNoneOnceReplaced k o s h }
{}
