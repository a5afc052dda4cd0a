ghost use Rattle.std.specs.Prelude.{◌≡◌, ◌++◌, ℕ, false, List, [], ◌∷◌};
ghost use Rattle.std.specs.List.{All};
ghost use Rattle.pr_line.specs.declared.options.Options.{Options};
ghost use Rattle.pr_model.specs.Events.{events_from};
ghost use Rattle.pr_model.specs.Lawful.{IsLawful};
ghost use Rattle.pr_model.specs.Legal.{IsLegal};
ghost use Rattle.pr_model.specs.State.{TracedState};
ghost use Rattle.pr_model.specs.declared.events.Entry.{Entry};
ghost use Rattle.pr_report_laws.specs.Births.{LeavesForks, NamesNoChild};
ghost use Rattle.pr_report_laws.specs.Attachments.{HasFollowed};
ghost use Rattle.pr_report_laws.specs.Newborn.{IsNoTurnOf, WasForked, WasSpawned};
ghost use Rattle.pr_report_laws.specs.Shown.{selected};
ghost use Rattle.pr_report_laws.specs.Watching.{watches};
ghost use Rattle.pr_truss_laws.specs.Exchanges.{truss_at};
ghost use Rattle.pr_report_laws.specs.ReachedRuns.{IsReachedTrussRun};

/// No process is made twice. In a legal history of a lawful state at most one entry makes the process of a pid: a turn
/// that makes it by fork, or a call by which a controller makes it of a program.
pub fn no_process_is_made_twice()
    ensures forked { (n pid : ℕ) (s : TracedState) (h : List Entry) → IsLawful s → IsLegal n s h
        → (f g : WasForked pid h) → f.before ≡ g.before }
    ensures spawned { (n j k pid : ℕ) (s : TracedState) (h : List Entry) → IsLawful s → IsLegal n s h
        → (f : WasSpawned j pid h) (g : WasSpawned k pid h) → f.before ≡ g.before }
    ensures apart { (n by pid : ℕ) (s : TracedState) (h : List Entry) → IsLawful s → IsLegal n s h → WasForked pid h
        → WasSpawned by pid h → ⊥ }
{}

/// Nothing is lost between a fork and the watch of its child. In a history of which truss shows the selected events,
/// where the last entry makes truss watch a process by the calls with which it opens the child of a fork: that process
/// was made by a fork of this history, so no controller made it of a program; no lwp of it has had a turn in it, and so
/// no event of it that the options select was logged before truss watches it.
#[tactic(auto, using(crate::proofs::NewbornChildren::NewbornLaws::newborns))]
pub fn a_followed_child_does_nothing_before_it_is_watched()
    ensures forked { (n k : ℕ) (o : Options) (pid : ℕ) (s : TracedState) (before : List Entry) (e : Entry)
        → IsReachedTrussRun n k o s (before ++ e ∷ []) → NamesNoChild o (before ++ e ∷ [])
        → LeavesForks k o (before ++ e ∷ []) → watches (truss_at k o before) pid ≡ false
        → HasFollowed k pid (before ++ e ∷ []) → WasForked pid (before ++ e ∷ []) }
    ensures not_started { (n k by : ℕ) (o : Options) (pid : ℕ) (s : TracedState) (before : List Entry) (e : Entry)
        → IsReachedTrussRun n k o s (before ++ e ∷ [])
        → NamesNoChild o (before ++ e ∷ []) → LeavesForks k o (before ++ e ∷ [])
        → watches (truss_at k o before) pid ≡ false → HasFollowed k pid (before ++ e ∷ [])
        → WasSpawned by pid (before ++ e ∷ []) → ⊥ }
    ensures still { (n k : ℕ) (o : Options) (pid : ℕ) (s : TracedState) (before : List Entry) (e : Entry)
        → IsReachedTrussRun n k o s (before ++ e ∷ []) → NamesNoChild o (before ++ e ∷ [])
        → LeavesForks k o (before ++ e ∷ []) → watches (truss_at k o before) pid ≡ false
        → HasFollowed k pid (before ++ e ∷ []) → All (IsNoTurnOf pid) (before ++ e ∷ []) }
    ensures silent { (n k : ℕ) (o : Options) (pid : ℕ) (s : TracedState) (before : List Entry) (e : Entry)
        → IsReachedTrussRun n k o s (before ++ e ∷ []) → NamesNoChild o (before ++ e ∷ [])
        → LeavesForks k o (before ++ e ∷ []) → watches (truss_at k o before) pid ≡ false
        → HasFollowed k pid (before ++ e ∷ []) → selected o pid (events_from s (before ++ e ∷ [])) ≡ [] }
{}
