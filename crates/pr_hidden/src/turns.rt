ghost use Rattle.std.specs.Prelude.{◌≡◌, ℕ, Some};
ghost use Rattle.pr_model.specs.LwpTurns.{LwpTurn, turn_of};
ghost use Rattle.pr_model.specs.State.{TracedLwp, TracedProcess, TracedSystem, live_process, lwp_of};
ghost use Rattle.pr_hidden.specs.Covers.{Covers, uncovered};
ghost use Rattle.pr_hidden.specs.Following.{IsOpenTurn};

/// A turn that is nothing of a controller's is the same turn without what is hidden: it did the same, with the same
/// stop, and what it leaves is what it leaves of the system, without what is hidden.
#[tactic(auto, using(crate::proofs::Covers::TurnCovers::follows))]
pub fn turns_are_followed()
    ensures { (covers : Covers) (s : TracedSystem) (pid id : ℕ) (t : LwpTurn) (p : TracedProcess) (l : TracedLwp)
        → turn_of s pid id ≡ Some t → live_process s pid ≡ Some p → lwp_of p id ≡ Some l
        → IsOpenTurn covers s pid p id l
        → turn_of (uncovered covers s) pid id
        ≡ Some (record { system = uncovered covers t.system; turned = t.turned }) }
{}
