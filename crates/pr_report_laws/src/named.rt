ghost use Rattle.std.specs.Prelude.{ℕ, List};
ghost use Rattle.pr_line.specs.declared.options.Options.{Options};
ghost use Rattle.pr_model.specs.State.{TracedState};
ghost use Rattle.pr_model.specs.declared.events.Entry.{Entry};
ghost use Rattle.pr_report_laws.specs.Named.{IsSoonDone, LooksAtWhatIsNamed, RunsBeforeItPolls};
ghost use Rattle.pr_report_laws.specs.RunsNamed.{RunsWhatWasNamed};
ghost use Rattle.pr_truss.specs.Trusses.{first_truss};
ghost use Rattle.pr_truss_laws.specs.Exchanges.{Exchange, Makes};
ghost use Rattle.pr_truss_laws.specs.Runs.{IsTrussRun};

/// In a legal history of a lawful state, in which a truss with nothing open makes its calls: when a poll of it has
/// named a process, at most twelve of its calls come before it runs that process or closes the first handle that it has
/// of it. No interrupt can lengthen this: only a call that waits is interrupted, and none that comes between does.
#[tactic(auto, using(crate::proofs::Watching::NamedSoon::soon))]
pub fn what_a_poll_named_is_run_or_closed_within_twelve_calls()
    ensures { (n k : ℕ) (o : Options) (s : TracedState) (h : List Entry) → IsTrussRun n k o s h → IsSoonDone k s h }
{}

/// Truss runs no other process than the one that a poll has named last, and once for each poll, but where it ends an
/// opening. This is so whatever it was replied.
#[tactic(auto, using(crate::proofs::Asking::NamedRuns::named_runs))]
pub fn truss_runs_what_a_poll_has_named()
    ensures { (o : Options) (xs : List Exchange) → Makes (first_truss o) xs → RunsWhatWasNamed o xs }
{}

/// In such a history truss reads the status of a process right after a poll has named it, and runs the process, or
/// closes a file of it, before it polls again.
#[tactic(auto, using(crate::proofs::Watching::NamedSoon::soon))]
pub fn truss_looks_at_what_a_poll_named()
    ensures looks { (n k : ℕ) (o : Options) (s : TracedState) (h : List Entry) → IsTrussRun n k o s h
        → LooksAtWhatIsNamed k s h }
    ensures runs { (n k : ℕ) (o : Options) (s : TracedState) (h : List Entry) → IsTrussRun n k o s h
        → RunsBeforeItPolls k s h }
{}
