ghost use Rattle.std.specs.Prelude.{ℕ, List};
ghost use Rattle.pr_reached.specs.SleptCopies.{NoneSleepsInCopy};
ghost use Rattle.pr_model.specs.FirstState.{first_state};
ghost use Rattle.pr_model.specs.Legal.{IsLegal, state_after};
ghost use Rattle.pr_model.specs.State.{TracedState};
ghost use Rattle.pr_model.specs.declared.events.Entry.{Entry};
ghost use Rattle.pr_num.specs.Programs.{Program};
ghost use Rattle.pr_num.specs.declared.files.StoredFile.{StoredFile};

/// No lwp is asleep in a fork, a vfork or an exec in the first state of a scenario, nor after a legal history from a
/// state in which none is: such a call is over at once.
#[tactic(auto, using(crate::proofs::Sleepers::SleptHistories::none_sleeps))]
pub fn no_lwp_sleeps_in_a_copy()
    ensures first { (programs : List Program) (files : List StoredFile) (spawns : List ℕ)
        → NoneSleepsInCopy (first_state programs files spawns).system }
    ensures stays { (n : ℕ) (s : TracedState) (h : List Entry) → NoneSleepsInCopy s.system → IsLegal n s h
        → NoneSleepsInCopy (state_after s h).system }
{}
