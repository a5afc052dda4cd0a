ghost use Rattle.std.specs.Prelude.{ℕ, List};
ghost use Rattle.pr_line.specs.declared.options.Options.{Options};
ghost use Rattle.pr_model.specs.State.{TracedState};
ghost use Rattle.pr_model.specs.declared.events.Entry.{Entry};
ghost use Rattle.pr_report_laws.specs.Births.{IsNeverFollowed, LeavesForks, NamesNoChild};
ghost use Rattle.pr_report_laws.specs.Reported.{IsReported};
ghost use Rattle.pr_report_laws.specs.ReachedRuns.{IsReachedTrussRun};

/// Of each process truss has shown exactly the selected events that came while truss watched it, once and in order. The
/// last one of them may be missing: where truss still watches the process, or where SIGKILL ended the process while
/// truss watched it. Truss had no answer that told the missing one: it was the only selected event of its entry, and
/// since that entry no read by truss of the status of the process, or of the statuses of its lwps, got bytes. Nothing
/// is said here of the bytes of memory that stand in a line.
///
/// The history is legal, from a state in which truss has nothing open, and truss makes its calls in it. Where children
/// are followed, fork makes none of the processes that the options name, and between a fork and the opening of its
/// child no other controller is granted a handle for writing of the child. What else other controllers do does not
/// matter.
#[tactic(auto, using(crate::proofs::UnopenedChildren::Births::reports))]
pub fn truss_shows_the_selected_events()
    ensures { (n k : ℕ) (o : Options) (pid : ℕ) (s : TracedState) (h : List Entry) → IsReachedTrussRun n k o s h
        → NamesNoChild o h → LeavesForks k o h → IsReported k o pid s h }
{}

/// The same of a process of which truss never got hold as the child of a fork, as of each that it was given, if fork
/// did not make it: whatever becomes of the children of forks.
#[tactic(auto, using(crate::proofs::UnopenedChildren::Births::reports))]
pub fn truss_shows_the_selected_events_of_what_it_never_followed()
    ensures { (n k : ℕ) (o : Options) (pid : ℕ) (s : TracedState) (h : List Entry) → IsReachedTrussRun n k o s h
        → IsNeverFollowed k o pid h → IsReported k o pid s h }
{}
