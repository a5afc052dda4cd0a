ghost use Rattle.std.specs.Prelude.{◌≡◌, ℕ};
ghost use Rattle.pr_model.specs.Erasure.{erased_lwp, erased_process, erased_system};
ghost use Rattle.pr_model.specs.Lives.{with_this_ended};
ghost use Rattle.pr_model.specs.Machines.{traced, untraced};
ghost use Rattle.pr_model.specs.State.{TracedLwp, TracedProcess, TracedSystem};
ghost use Rattle.pr_model.specs.Transitions.{Transition, after_transition};
ghost use Rattle.pr_erasure.specs.Suiting.{IsThere, Suits};

/// A process that ends in the traced system ends in what programs can see of it, whatever ended it.
#[tactic(auto, using(crate::proofs::SeenParts::LifeLemmas::ends))]
pub fn erasure_follows_an_end()
    ensures { (pid : ℕ) (p : TracedProcess) (status : ℕ) (s : TracedSystem)
        → erased_system (with_this_ended traced pid p status s)
        ≡ with_this_ended untraced pid (erased_process p) status (erased_system s) }
{}

/// Whatever a turn of an lwp does, programs see the same transition of the untraced machine.
#[tactic(auto, using(crate::proofs::SeenTurns::TransitionLemmas::transitions))]
pub fn erasure_follows_a_transition()
    ensures { (s : TracedSystem) (pid : ℕ) (p : TracedProcess) (id : ℕ) (l : TracedLwp) → IsThere s pid p id l
        → (t : Transition) → Suits t l.phase
        → erased_system (after_transition traced pid p id l t s)
        ≡ after_transition untraced pid (erased_process p) id (erased_lwp l) t (erased_system s) }
{}
