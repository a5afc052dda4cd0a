ghost use Rattle.std.specs.Prelude.{◌≡◌, ℕ, List};
ghost use Rattle.pr_lawful.specs.Starts.{IsStart};
ghost use Rattle.pr_model.specs.FirstState.{first_state};
ghost use Rattle.pr_model.specs.Legal.{IsLegal, state_after};
ghost use Rattle.pr_model.specs.State.{TracedState};
ghost use Rattle.pr_model.specs.declared.events.Entry.{Entry};
ghost use Rattle.pr_num.specs.Programs.{Program};
ghost use Rattle.pr_num.specs.declared.files.StoredFile.{StoredFile};

/// A legal history leaves the programs of the system as they were. After one from a first state they are those that this
/// was made of.
pub fn programs_stay_as_they_were()
    ensures later { (n : ℕ) (s : TracedState) (h : List Entry) → IsLegal n s h
        → (state_after s h).system.programs ≡ s.system.programs }
    ensures first { (n : ℕ) (programs : List Program) (files : List StoredFile) (spawns : List ℕ) (h : List Entry)
        → IsStart programs files spawns → IsLegal n (first_state programs files spawns) h
        → (state_after (first_state programs files spawns) h).system.programs ≡ programs }
{}
