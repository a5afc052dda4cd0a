ghost use Rattle.std.specs.Prelude.{ℕ, List};
ghost use Rattle.pr_line.specs.declared.options.Options.{Options};
ghost use Rattle.pr_model.specs.State.{TracedState};
ghost use Rattle.pr_model.specs.declared.events.Entry.{Entry};
ghost use Rattle.pr_report_laws.specs.Births.{IsNeverFollowed, LeavesForks, NamesNoChild};
ghost use Rattle.pr_report_laws.specs.Reads.{HasRead};
ghost use Rattle.pr_report_laws.specs.ReachedRuns.{IsReachedTrussRun};

/// What truss has read of each process: the events at which it found an lwp of the process, each by a read of its own,
/// in order. They are just the events that came while truss watched the process and that truss traces; the last one of
/// those may be missing, for the reasons for which one may be missing of what truss has shown. What it has shown of the
/// process is what it has read and the options select, and nothing else.
///
/// The conditions are those of `truss_shows_the_selected_events`.
#[tactic(auto, using(crate::proofs::Reading::ReadLaws::readings))]
pub fn truss_reads_the_traced_events()
    ensures { (n k : ℕ) (o : Options) (pid : ℕ) (s : TracedState) (h : List Entry) → IsReachedTrussRun n k o s h
        → NamesNoChild o h → LeavesForks k o h → HasRead k o pid s h }
{}

/// The same of a process of which truss never got hold as the child of a fork.
#[tactic(auto, using(crate::proofs::Reading::ReadLaws::readings))]
pub fn truss_reads_the_traced_events_of_what_it_never_followed()
    ensures { (n k : ℕ) (o : Options) (pid : ℕ) (s : TracedState) (h : List Entry) → IsReachedTrussRun n k o s h
        → IsNeverFollowed k o pid h → HasRead k o pid s h }
{}
