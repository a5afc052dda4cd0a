ghost use Rattle.std.specs.Prelude.{◌≡◌, ℕ, Some, None, [], ◌∷◌};
ghost use Rattle.pr_num.specs.Agents.{agent_id};
ghost use Rattle.pr_num.specs.ById.{IsRising};
ghost use Rattle.pr_model.specs.State.{TracedProcess, TracedLwp, lwp_of};
ghost use Rattle.pr_model.specs.Stops.{has_event_stop, is_stopped, representative, IsFirstOfClasses};

/// A process of one lwp is stopped on an event of interest exactly where that lwp stands on one.
#[tactic(auto, using(crate::proofs::StopLemmas::single))]
pub fn one_lwp_is_its_process()
    ensures { (p : TracedProcess) (id : ℕ) (l : TracedLwp) → p.lwps ≡ (id, l) ∷ [] → is_stopped p ≡ has_event_stop l }
{}

/// The representative of a process (proc(4)): its agent while there is one, and else an lwp such that none is of a
/// lesser class, and none of its class has a lesser id.
#[tactic(auto, using(crate::proofs::RepresentativeLemmas::representatives))]
pub fn the_representative_is_first_of_its_process()
    ensures agent { (p : TracedProcess) (l : TracedLwp) → lwp_of p agent_id ≡ Some l → representative p ≡ Some (agent_id, l) }
    ensures first { (p : TracedProcess) (e : ℕ × TracedLwp) → IsRising p.lwps → lwp_of p agent_id ≡ None
        → representative p ≡ Some e → IsFirstOfClasses p e }
{}
