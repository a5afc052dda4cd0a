ghost use Rattle.std.specs.Prelude.{◌≡◌, ◌⊎◌, ◌++◌, ℕ, true, None, List, [], ◌∷◌};
ghost use Rattle.pr_line.specs.declared.options.Options.{Options};
ghost use Rattle.pr_model.specs.Events.{Logged};
ghost use Rattle.pr_model.specs.State.{TracedState};
ghost use Rattle.pr_model.specs.declared.events.Entry.{Entry};
ghost use Rattle.pr_report_laws.specs.AsChildren.{IsNeverOpenedAsChild};
ghost use Rattle.pr_report_laws.specs.Attachments.{IsLetGo};
ghost use Rattle.pr_report_laws.specs.HeldEvents.{ReadsHeld, ShowsHeld};
ghost use Rattle.pr_report_laws.specs.HeldForks.{CaresForChildren};
ghost use Rattle.pr_report_laws.specs.HeldGrips.{HasOneGrip};
ghost use Rattle.pr_report_laws.specs.HeldMemories.{StandAtTheirEvents};
ghost use Rattle.pr_report_laws.specs.Holds.{CameHeld, HasHold, LetsGoIn};
ghost use Rattle.pr_report_laws.specs.Lineages.{IsLeftToTruss};
ghost use Rattle.pr_report_laws.specs.Watching.{events_watched, watches};
ghost use Rattle.pr_truss.specs.NextCalls.{next_call_of};
ghost use Rattle.pr_truss.specs.Trusses.{first_truss};
ghost use Rattle.pr_truss_laws.specs.Exchanges.{truss_at};
ghost use Rattle.pr_report_laws.specs.ReachedRuns.{IsReachedTrussRun};
ghost use Rattle.pr_truss_laws.specs.Runs.{IsTrussRun};

/// The watch of a process, which is a part of truss's own state, is told by calls and replies. In a legal history of a
/// lawful state, in which a truss with nothing open makes its calls, truss watches a process just while it has hold of
/// it: from the entry that completes the opening, to the one in which a call to a handle of the process is refused with
/// ENOENT, or in which truss, which was interrupted, has read the statuses of its lwps. What is logged while truss
/// watches the process is what is logged in the hold.
#[tactic(auto, using(crate::proofs::Holding::HeldLaws::holds))]
pub fn truss_watches_a_process_while_it_has_hold_of_it()
    ensures held { (n k : ℕ) (o : Options) (pid : ℕ) (s : TracedState) (h : List Entry) → IsTrussRun n k o s h
        → HasHold k o pid s h → watches (truss_at k o h) pid ≡ true }
    ensures watched { (n k : ℕ) (o : Options) (pid : ℕ) (s : TracedState) (h : List Entry) → IsTrussRun n k o s h
        → watches (truss_at k o h) pid ≡ true → HasHold k o pid s h }
    ensures came { (n k : ℕ) (o : Options) (pid : ℕ) (s : TracedState) (h : List Entry) → IsTrussRun n k o s h
        → (logged : List Logged) → CameHeld k o pid s h logged
        → events_watched k pid (first_truss o) s h ≡ logged }
{}

/// Of each process truss has read the events that it traces and that came while it had hold of the process, each by a
/// read of its own, and has shown those of them that the options select, once and in order, and nothing else. The last
/// one may be missing, where truss has hold of the process still, or SIGKILL ended it in the hold; and since it came no
/// read of truss told of it. The memory in the line of an event is that of the state right after it, as
/// `the_text_of_an_event_is_that_of_its_moment` says. This is said of a process that is left to truss, as each is that
/// it descends from, and of one that truss never opened as the child of a fork.
#[tactic(auto, using(crate::proofs::Holding::HeldLaws::held))]
pub fn truss_shows_what_came_while_it_had_hold_of_a_process()
    ensures shows { (n k : ℕ) (o : Options) (pid : ℕ) (s : TracedState) (h : List Entry)
        → IsReachedTrussRun n k o s h → IsLeftToTruss k o pid s h ⊎ IsNeverOpenedAsChild k o pid s h
        → ShowsHeld k o pid s h }
    ensures reads { (n k : ℕ) (o : Options) (pid : ℕ) (s : TracedState) (h : List Entry)
        → IsReachedTrussRun n k o s h → IsLeftToTruss k o pid s h ⊎ IsNeverOpenedAsChild k o pid s h
        → ReadsHeld k o pid s h }
    ensures moments { (n k : ℕ) (o : Options) (pid : ℕ) (s : TracedState) (h : List Entry)
        → IsReachedTrussRun n k o s h → IsLeftToTruss k o pid s h ⊎ IsNeverOpenedAsChild k o pid s h
        → StandAtTheirEvents k o pid s h (truss_at k o h).reports }
{}

/// Truss gets hold of a process once. From the answered wait of an opening on, the process does nothing until truss has
/// hold of it, so that what is selected of it from the wait on is what is selected of it in the hold.
#[tactic(auto, using(crate::proofs::Holding::HeldLaws::held))]
pub fn truss_has_one_grip_of_a_process()
    ensures { (n k : ℕ) (o : Options) (pid : ℕ) (s : TracedState) (h : List Entry) → IsReachedTrussRun n k o s h
        → HasOneGrip k o pid s h }
{}

/// Where children are followed and truss has finished, it has cared for the child of each fork and vfork that came
/// while it had hold of the parent, as `no_child_is_left` says.
#[tactic(auto, using(crate::proofs::Holding::HeldLaws::held))]
pub fn no_child_is_left_of_a_process_that_truss_had_hold_of()
    ensures { (n k : ℕ) (o : Options) (s : TracedState) (h : List Entry) → o.follow ≡ true
        → IsReachedTrussRun n k o s h → next_call_of (truss_at k o h) ≡ None → CaresForChildren k o s h }
{}

/// Where truss lets a process go, of which it has hold, the process has ended; or truss was interrupted before, and has
/// read the statuses of its lwps.
#[tactic(auto, using(crate::proofs::Holding::HeldLaws::held))]
pub fn truss_lets_a_process_go_for_a_reason()
    ensures { (n k : ℕ) (o : Options) (pid : ℕ) (s : TracedState) (before : List Entry) (e : Entry)
        → IsTrussRun n k o s (before ++ e ∷ []) → HasHold k o pid s before → LetsGoIn k pid s before e
        → IsLetGo k pid s before e }
{}
