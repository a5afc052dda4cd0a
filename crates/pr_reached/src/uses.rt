ghost use Rattle.std.specs.Prelude.{◌≡◌, ◌+◌, ℕ, List, Some, length};
ghost use Rattle.pr_num.specs.Programs.{Program};
ghost use Rattle.pr_num.specs.Words.{IsWord};
ghost use Rattle.pr_num.specs.declared.files.StoredFile.{StoredFile};
ghost use Rattle.pr_rec.specs.InRange.{IsUsage};
ghost use Rattle.pr_model.specs.FirstState.{first_state};
ghost use Rattle.pr_model.specs.Lawful.{IsLawfulSystem};
ghost use Rattle.pr_model.specs.Legal.{state_after};
ghost use Rattle.pr_model.specs.Records.{usage_of};
ghost use Rattle.pr_model.specs.State.{TracedProcess, TracedState, TracedSystem, process_of};
ghost use Rattle.pr_model.specs.declared.events.Entry.{Entry};
ghost use Rattle.pr_reached.specs.Used.{HaveUsed};

/// Nothing is used at first, and each entry of a history, whatever it is, adds at most one to what a process has used
/// of anything.
pub fn counts_grow_with_histories()
    ensures first { (programs : List Program) (files : List StoredFile) (spawns : List ℕ)
        → HaveUsed 0 (first_state programs files spawns).system }
    ensures later { (most : ℕ) (s : TracedState) (h : List Entry) → HaveUsed most s.system
        → HaveUsed (most + length h) (state_after s h).system }
{}

/// The record of what a process has used, live or a zombie, has its fields in their ranges where no process has used
/// more than a word can say.
pub fn what_is_used_is_in_range()
    ensures { (most : ℕ) (s : TracedSystem) (pid : ℕ) (p : TracedProcess) → IsWord most → IsLawfulSystem s
        → HaveUsed most s → process_of s pid ≡ Some p → IsUsage (usage_of pid p) }
{}
