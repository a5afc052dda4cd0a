ghost use Rattle.std.specs.Prelude.{ℕ, List};
ghost use Rattle.pr_num.specs.Programs.{Program};
ghost use Rattle.pr_num.specs.declared.files.StoredFile.{StoredFile};
ghost use Rattle.pr_model.specs.FirstState.{first_state};
ghost use Rattle.pr_model.specs.Legal.{IsLegal, state_after};
ghost use Rattle.pr_model.specs.State.{TracedState, TracedSystem};
ghost use Rattle.pr_model.specs.declared.events.Entry.{Entry};
ghost use Rattle.pr_reached.specs.HistoriesInRange.{FirstStaysInRange, StaysInRange};
ghost use Rattle.pr_reached.specs.InRange.{IsInRange};
ghost use Rattle.pr_reached.specs.Mapped.{HaveAddressSpaces, HaveFewMappings};

/// Each mapping of a process has a page at least, and no process has more than 256 of them, in each state that a legal
/// history leads to, from a lawful state in range or from a first state, where controllers write bytes.
pub fn processes_have_few_mappings()
    ensures later { (n : ℕ) (s : TracedState) (h : List Entry) → StaysInRange s h → IsLegal n s h
        → HaveFewMappings (state_after s h).system }
    ensures first { (n : ℕ) (programs : List Program) (files : List StoredFile) (spawns : List ℕ) (h : List Entry)
        → FirstStaysInRange programs files spawns h → IsLegal n (first_state programs files spawns) h
        → HaveFewMappings (state_after (first_state programs files spawns) h).system }
{}

/// What each process has mapped is an address space, and so is what it shows of its memory: the mappings stand by
/// rising address and apart from each other. It is so in every system in range, and so in each state that a legal
/// history leads to, from a lawful state in range or from a first state, where controllers write bytes.
pub fn processes_have_address_spaces()
    ensures each { (s : TracedSystem) → IsInRange s → HaveAddressSpaces s }
    ensures later { (n : ℕ) (s : TracedState) (h : List Entry) → StaysInRange s h → IsLegal n s h
        → HaveAddressSpaces (state_after s h).system }
    ensures first { (n : ℕ) (programs : List Program) (files : List StoredFile) (spawns : List ℕ) (h : List Entry)
        → FirstStaysInRange programs files spawns h → IsLegal n (first_state programs files spawns) h
        → HaveAddressSpaces (state_after (first_state programs files spawns) h).system }
{}
