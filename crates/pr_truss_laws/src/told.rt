ghost use Rattle.std.specs.Prelude.{◌≡◌, ℕ, Some, true, false};
ghost use Rattle.pr_model.specs.Lawful.{IsLawfulSystem};
ghost use Rattle.pr_model.specs.LwpTurns.{LwpTurn, turn_of};
ghost use Rattle.pr_model.specs.State.{TracedLwp, TracedProcess, TracedSystem, live_process, lwp_of};
ghost use Rattle.pr_truss_laws.specs.Told.{TellsItsEvent, has_ended};

/// Right after a turn in which an lwp stopped on an event of interest its status tells the event that the turn logged,
/// where no call ended the lwp.
#[tactic(auto, using(crate::proofs::EventStops::BridgeLemmas::bridges))]
pub fn a_stop_tells_its_event()
    ensures { (s : TracedSystem) (pid : ℕ) (p : TracedProcess) (id : ℕ) (l : TracedLwp) → IsLawfulSystem s
        → live_process s pid ≡ Some p → lwp_of p id ≡ Some l → (t : LwpTurn) → turn_of s pid id ≡ Some t
        → t.turned.stop ≡ true → has_ended t.turned.did ≡ false → (q : TracedProcess) (k : TracedLwp)
        → live_process t.system pid ≡ Some q → lwp_of q id ≡ Some k → TellsItsEvent p l t.turned.did q id k }
{}
