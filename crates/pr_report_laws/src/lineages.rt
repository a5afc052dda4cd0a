ghost use Rattle.std.specs.Prelude.{◌≡◌, ◌++◌, ℕ, false, List, [], ◌∷◌};
ghost use Rattle.std.specs.List.{All};
ghost use Rattle.pr_line.specs.declared.options.Options.{Options};
ghost use Rattle.pr_model.specs.Events.{events_from};
ghost use Rattle.pr_model.specs.State.{TracedState};
ghost use Rattle.pr_model.specs.declared.events.Entry.{Entry};
ghost use Rattle.pr_report_laws.specs.AtBirth.{IsFollowedAtBirth};
ghost use Rattle.pr_report_laws.specs.Attachments.{HasFollowed};
ghost use Rattle.pr_report_laws.specs.Births.{LeavesForks, NamesNoChild};
ghost use Rattle.pr_report_laws.specs.Grips.{IsGripOfChild};
ghost use Rattle.pr_report_laws.specs.Lineages.{IsLeftToTruss};
ghost use Rattle.pr_report_laws.specs.Memories.{AreOfTheirEvents};
ghost use Rattle.pr_report_laws.specs.Newborn.{IsNoTurnOf, WasForked, WasSpawned};
ghost use Rattle.pr_report_laws.specs.Reads.{HasRead};
ghost use Rattle.pr_report_laws.specs.Reported.{IsReported};
ghost use Rattle.pr_report_laws.specs.Shown.{selected};
ghost use Rattle.pr_report_laws.specs.Watching.{events_watched, watches};
ghost use Rattle.pr_truss.specs.Trusses.{first_truss};
ghost use Rattle.pr_truss_laws.specs.Exchanges.{truss_at};
ghost use Rattle.pr_report_laws.specs.ReachedRuns.{IsReachedTrussRun};

/// Of a process that stands as at its birth where truss gets hold of it as the child of a fork, truss has shown exactly
/// the selected events that came while truss watched it, as `truss_shows_the_selected_events` says: whoever had this
/// process before, and whatever becomes of other children.
#[tactic(auto, using(crate::proofs::UnopenedChildren::Births::reports))]
pub fn truss_shows_the_selected_events_of_what_it_follows_at_its_birth()
    ensures { (n k : ℕ) (o : Options) (pid : ℕ) (s : TracedState) (h : List Entry) → IsReachedTrussRun n k o s h
        → IsFollowedAtBirth k o pid s h → IsReported k o pid s h }
{}

/// And the memory in the line of an event of the process is the one right after the event, as
/// `the_text_of_an_event_is_that_of_its_moment` says.
#[tactic(auto, using(crate::proofs::Memory::EventMemory::moments))]
pub fn the_text_of_an_event_is_that_of_its_moment_where_truss_follows_at_the_birth()
    ensures { (n k : ℕ) (o : Options) (pid : ℕ) (s : TracedState) (h : List Entry) → IsReachedTrussRun n k o s h
        → IsFollowedAtBirth k o pid s h → AreOfTheirEvents k o pid s h (truss_at k o h).reports }
{}

/// A process that is left to truss, as each is that it descends from by the children that truss opened, stands so where
/// truss gets hold of it: between the fork that made it and the open by which truss took it as a child no other
/// controller was granted a handle for writing of it, nor was truss itself, where its options name it, granted its
/// `as`, the last file of an opening. Other children of forks may be anybody's, and so may those be of which truss was
/// told, but which it did not open as children.
#[tactic(auto, using(crate::proofs::UnopenedChildren::Births::reports))]
pub fn what_is_left_to_truss_is_followed_at_its_birth()
    ensures { (n k : ℕ) (o : Options) (pid : ℕ) (s : TracedState) (h : List Entry) → IsReachedTrussRun n k o s h
        → IsLeftToTruss k o pid s h → IsFollowedAtBirth k o pid s h }
{}

/// So each followed child is shown by itself: of a process that is left to truss, as each is that it descends from,
/// truss has shown exactly the selected events that came while truss watched it.
#[tactic(auto, using(crate::proofs::UnopenedChildren::Births::reports))]
pub fn truss_shows_the_selected_events_of_what_is_left_to_it()
    ensures { (n k : ℕ) (o : Options) (pid : ℕ) (s : TracedState) (h : List Entry) → IsReachedTrussRun n k o s h
        → IsLeftToTruss k o pid s h → IsReported k o pid s h }
{}

/// And what truss has read of it are just the events that came while truss watched it and that truss traces, as
/// `truss_reads_the_traced_events` says: of a process that is left to truss, and of one that stands as at its birth
/// where truss gets hold of it.
#[tactic(auto, using(crate::proofs::Reading::ReadLaws::readings))]
pub fn truss_reads_the_traced_events_of_what_is_left_to_it()
    ensures left { (n k : ℕ) (o : Options) (pid : ℕ) (s : TracedState) (h : List Entry)
        → IsReachedTrussRun n k o s h → IsLeftToTruss k o pid s h → HasRead k o pid s h }
    ensures at_birth { (n k : ℕ) (o : Options) (pid : ℕ) (s : TracedState) (h : List Entry)
        → IsReachedTrussRun n k o s h → IsFollowedAtBirth k o pid s h → HasRead k o pid s h }
{}

/// And the selected events that come in the grip of it are those that come in the whole history while truss watches it,
/// as `the_grip_of_a_process_is_the_watch_of_it` says.
#[tactic(auto, using(crate::proofs::Watching::GripLaws::grips))]
pub fn the_grip_of_a_child_that_is_left_to_truss_is_the_watch_of_it()
    ensures { (n k : ℕ) (o : Options) (pid : ℕ) (s : TracedState) (grip later : List Entry)
        → IsReachedTrussRun n k o s (grip ++ later) → (g : IsGripOfChild k pid s grip later)
        → IsLeftToTruss k o pid s (g.before ++ g.running ∷ [])
        → selected o pid (events_from s grip)
        ≡ selected o pid (events_watched k pid (first_truss o) s (grip ++ later)) }
{}

/// On the same condition the memory in the line of an event of the process is the one right after the event, as
/// `the_text_of_an_event_is_that_of_its_moment` says.
#[tactic(auto, using(crate::proofs::Memory::EventMemory::moments))]
pub fn the_text_of_an_event_is_that_of_its_moment_where_it_is_left_to_truss()
    ensures { (n k : ℕ) (o : Options) (pid : ℕ) (s : TracedState) (h : List Entry) → IsReachedTrussRun n k o s h
        → IsLeftToTruss k o pid s h → AreOfTheirEvents k o pid s h (truss_at k o h).reports }
{}

/// And on this condition nothing is lost between the fork that made a followed child and the watch of the child. Where
/// the last entry makes truss watch a process by the calls with which it opens the child of a fork: a fork of this
/// history made it, so no controller made it of a program; no lwp of it has had a turn, and so no event of it that the
/// options select was logged before truss watches it.
#[tactic(auto, using(crate::proofs::NewbornChildren::NewbornLaws::newborns))]
pub fn a_child_that_is_left_to_truss_does_nothing_before_it_is_watched()
    ensures forked { (n k : ℕ) (o : Options) (pid : ℕ) (s : TracedState) (before : List Entry) (e : Entry)
        → IsReachedTrussRun n k o s (before ++ e ∷ [])
        → IsLeftToTruss k o pid s (before ++ e ∷ []) → watches (truss_at k o before) pid ≡ false
        → HasFollowed k pid (before ++ e ∷ []) → WasForked pid (before ++ e ∷ []) }
    ensures not_started { (n k by : ℕ) (o : Options) (pid : ℕ) (s : TracedState) (before : List Entry) (e : Entry)
        → IsReachedTrussRun n k o s (before ++ e ∷ [])
        → IsLeftToTruss k o pid s (before ++ e ∷ []) → watches (truss_at k o before) pid ≡ false
        → HasFollowed k pid (before ++ e ∷ []) → WasSpawned by pid (before ++ e ∷ []) → ⊥ }
    ensures still { (n k : ℕ) (o : Options) (pid : ℕ) (s : TracedState) (before : List Entry) (e : Entry)
        → IsReachedTrussRun n k o s (before ++ e ∷ [])
        → IsLeftToTruss k o pid s (before ++ e ∷ []) → watches (truss_at k o before) pid ≡ false
        → HasFollowed k pid (before ++ e ∷ []) → All (IsNoTurnOf pid) (before ++ e ∷ []) }
    ensures silent { (n k : ℕ) (o : Options) (pid : ℕ) (s : TracedState) (before : List Entry) (e : Entry)
        → IsReachedTrussRun n k o s (before ++ e ∷ [])
        → IsLeftToTruss k o pid s (before ++ e ∷ []) → watches (truss_at k o before) pid ≡ false
        → HasFollowed k pid (before ++ e ∷ []) → selected o pid (events_from s (before ++ e ∷ [])) ≡ [] }
{}

/// This asks for less than what is asked of all children of forks at once: where fork makes none of the processes that
/// the options name, and each child is left to truss, each process is.
#[tactic(auto, using(crate::proofs::UnopenedChildren::Births::lefts))]
pub fn each_process_is_left_to_truss_where_all_children_are()
    ensures { (k : ℕ) (o : Options) (pid : ℕ) (s : TracedState) (h : List Entry) → NamesNoChild o h
        → LeavesForks k o h → IsLeftToTruss k o pid s h }
{}

/// A process that is left to truss in a history was so before each of its entries.
#[tactic(auto, using(crate::proofs::UnopenedChildren::LeftChildren::fronts))]
pub fn what_is_left_to_truss_was_left_to_it_before()
    ensures { (k : ℕ) (o : Options) (pid : ℕ) (s : TracedState) (before later : List Entry)
        → IsLeftToTruss k o pid s (before ++ later) → IsLeftToTruss k o pid s before }
{}
