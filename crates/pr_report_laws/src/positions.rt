ghost use Rattle.std.specs.Prelude.{◌⊎◌, ℕ, List};
ghost use Rattle.pr_line.specs.declared.options.Options.{Options};
ghost use Rattle.pr_model.specs.State.{TracedState};
ghost use Rattle.pr_model.specs.declared.events.Entry.{Entry};
ghost use Rattle.pr_report_laws.specs.AsChildren.{IsNeverOpenedAsChild};
ghost use Rattle.pr_report_laws.specs.Lineages.{IsLeftToTruss};
ghost use Rattle.pr_report_laws.specs.Positions.{StandsWithTruss};
ghost use Rattle.pr_report_laws.specs.ReachedRuns.{IsReachedTrussRun};

/// Why truss shows each event once, and none twice: the invariant of a process of which it has hold. The process is
/// traced as the options ask, and stands in one of four ways. No lwp of it stands on an event; or stops are left that
/// stood before truss came; or an lwp stands on one event that truss has not read, each other lwp will stop before it
/// does anything, and once a poll has named the process nothing of it moves; or truss has read the stop, and nothing of
/// the process moves until truss runs it. So at most one event is unread, and all others that came in the hold, and
/// that truss traces, are those that it has read. This is said of a process that is left to truss, as each is that it
/// descends from, and of one that truss never opened as the child of a fork.
#[tactic(auto, using(crate::proofs::Holding::PositionLaws::positions))]
pub fn a_process_stands_in_one_of_four_ways_with_truss()
    ensures { (n k : ℕ) (o : Options) (pid : ℕ) (s : TracedState) (h : List Entry) → IsReachedTrussRun n k o s h
        → IsLeftToTruss k o pid s h ⊎ IsNeverOpenedAsChild k o pid s h → StandsWithTruss k o pid s h }
{}
