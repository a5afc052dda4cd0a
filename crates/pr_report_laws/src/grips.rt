ghost use Rattle.std.specs.Prelude.{◌≡◌, ◌++◌, ◌∷◌, ℕ, true, false, List, []};
ghost use Rattle.pr_line.specs.declared.options.Options.{Options};
ghost use Rattle.pr_model.specs.State.{TracedState};
ghost use Rattle.pr_model.specs.declared.events.Entry.{Entry};
ghost use Rattle.pr_report_laws.specs.Grips.{GetsHold};
ghost use Rattle.pr_report_laws.specs.WatchedGrips.{HasGrips};
ghost use Rattle.pr_report_laws.specs.Watching.{watches};
ghost use Rattle.pr_truss_laws.specs.Exchanges.{truss_at};
ghost use Rattle.pr_report_laws.specs.ReachedRuns.{IsReachedTrussRun};
ghost use Rattle.pr_truss_laws.specs.Runs.{IsTrussRun};

/// In a legal history of a lawful state, in which a truss with nothing open makes its calls, it gets hold of a process
/// at most once: no two entries complete an opening of it. So it watches a process at most once: what it has let go it
/// does not watch again.
#[tactic(auto, using(crate::proofs::Watching::OnceLaws::once))]
pub fn truss_gets_hold_of_a_process_once()
    ensures calls { (n k : ℕ) (o : Options) (pid : ℕ) (s : TracedState) (before between : List Entry) (e f : Entry)
        → IsTrussRun n k o s (before ++ e ∷ (between ++ f ∷ [])) → GetsHold k o pid before e
        → GetsHold k o pid (before ++ e ∷ between) f → ⊥ }
    ensures watched { (n k : ℕ) (o : Options) (pid : ℕ) (s : TracedState) (before between later : List Entry)
        → IsTrussRun n k o s (before ++ (between ++ later)) → watches (truss_at k o before) pid ≡ true
        → watches (truss_at k o (before ++ between)) pid ≡ false
        → watches (truss_at k o (before ++ (between ++ later))) pid ≡ false }
{}

/// The grip of a process and the watch of it are one. Truss gets hold of the process once. From the answered wait of
/// its opening to PCRUN, which completes it, no event of the process is logged: each of its lwps stands still or was
/// directed to stop, and so it can only stop. The selected events of the process that come in the grip, which is from
/// that wait to the entry in which truss leaves the process, or to the end of the history, are those that come in the
/// whole history while truss watches the process. So it is of the child of a fork that is left to truss, the grip of
/// which is from its beginning.
#[tactic(auto, using(crate::proofs::Watching::GripLaws::grips))]
pub fn the_grip_of_a_process_is_the_watch_of_it()
    ensures { (n k : ℕ) (o : Options) (pid : ℕ) (s : TracedState) (h : List Entry) → IsReachedTrussRun n k o s h
        → HasGrips k o pid s h }
{}
