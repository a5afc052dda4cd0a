ghost use Rattle.std.specs.Prelude.{◌≡◌, ℕ, true, List, None};
ghost use Rattle.pr_line.specs.declared.options.Options.{Options};
ghost use Rattle.pr_model.specs.State.{TracedState};
ghost use Rattle.pr_model.specs.declared.events.Entry.{Entry};
ghost use Rattle.pr_report_laws.specs.SeenTo.{LeavesNoChild};
ghost use Rattle.pr_truss.specs.NextCalls.{next_call_of};
ghost use Rattle.pr_truss_laws.specs.Exchanges.{truss_at};
ghost use Rattle.pr_report_laws.specs.ReachedRuns.{IsReachedTrussRun};

/// No child is left. Where children are followed and truss has finished, it has seen to the child of each fork and
/// vfork that came while it watched the parent: after the fork it has opened the child, or set it free, or reported
/// that it was refused; or SIGKILL ended the parent while truss watched it, before truss had read the status of the
/// parent, or the statuses of its lwps, after the fork.
///
/// This is said of a parent that is left to truss, as each is that it descends from, and of one of which truss never
/// got hold as the child of a fork. Other children of forks may be anybody's.
#[tactic(auto, using(crate::proofs::SeenChildren::NoneLeft::children))]
pub fn no_child_is_left()
    ensures { (n k : ℕ) (o : Options) (s : TracedState) (h : List Entry) → o.follow ≡ true
        → IsReachedTrussRun n k o s h → next_call_of (truss_at k o h) ≡ None → LeavesNoChild k o s h }
{}
