ghost use Rattle.std.specs.Prelude.{◌∷◌, ◌++◌, ℕ, List, []};
ghost use Rattle.pr_line.specs.declared.options.Options.{Options};
ghost use Rattle.pr_model.specs.Legal.{state_after};
ghost use Rattle.pr_model.specs.State.{TracedState};
ghost use Rattle.pr_model.specs.declared.events.Entry.{Entry};
ghost use Rattle.pr_report_laws.specs.Grips.{IsLeftIn};
ghost use Rattle.pr_report_laws.specs.Unfollowed.{HasUnfollowed};
ghost use Rattle.pr_truss_laws.specs.Runs.{IsTrussRun};

/// Right before truss leaves a process, by the read of the statuses of its lwps, its last call is the message that
/// clears PR_FORK of the process: a child that the process makes after that read is not to stop at its birth for a
/// truss that looks at it no more.
#[tactic(auto, using(crate::proofs::Watching::Unfollowing::unfollowings))]
pub fn a_process_is_unfollowed_before_it_is_left()
    ensures { (n k : ℕ) (o : Options) (pid : ℕ) (s : TracedState) (before : List Entry) (e : Entry)
        → IsTrussRun n k o s (before ++ e ∷ []) → IsLeftIn k pid s before e
        → HasUnfollowed k pid (state_after s before) before }
{}
