ghost use Rattle.std.specs.Prelude.{ℕ, List};
ghost use Rattle.pr_num.specs.Programs.{Program};
ghost use Rattle.pr_num.specs.declared.files.StoredFile.{StoredFile};
ghost use Rattle.pr_model.specs.FirstState.{first_state};
ghost use Rattle.pr_model.specs.Lawful.{IsLawful};
ghost use Rattle.pr_model.specs.Legal.{IsLegal, state_after};
ghost use Rattle.pr_model.specs.State.{TracedState};
ghost use Rattle.pr_model.specs.declared.events.Entry.{Entry};
ghost use Rattle.pr_reached.specs.Fits.{IsFitSystem};

/// Every state that is reached is fit: an lwp that stands at the entry of a call has come to it and not made it, one
/// that stands at the exit of a call is on its way out of it, and SIGKILL does not pend. It is so of a first state, and
/// each legal history leads from a lawful state of which it is so to another.
pub fn reached_states_are_fit()
    ensures first { (programs : List Program) (files : List StoredFile) (spawns : List ℕ)
        → IsFitSystem (first_state programs files spawns).system }
    ensures later { (n : ℕ) (s : TracedState) (h : List Entry) → IsLawful s → IsFitSystem s.system → IsLegal n s h
        → IsFitSystem (state_after s h).system }
{}
