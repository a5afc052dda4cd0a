ghost use Rattle.std.specs.Prelude.{ℕ, List};
ghost use Rattle.pr_num.specs.Programs.{Program};
ghost use Rattle.pr_num.specs.declared.files.StoredFile.{StoredFile};
ghost use Rattle.pr_model.specs.FirstState.{first_state};
ghost use Rattle.pr_model.specs.Lawful.{IsLawfulSystem};
ghost use Rattle.pr_model.specs.Legal.{IsLegal, state_after};
ghost use Rattle.pr_model.specs.State.{TracedState, TracedSystem};
ghost use Rattle.pr_model.specs.declared.events.Entry.{Entry};
ghost use Rattle.pr_reached.specs.AllRecords.{AreRecordsInRange};
ghost use Rattle.pr_reached.specs.HistoriesInRange.{FirstStaysInRange, StaysInRange};
ghost use Rattle.pr_reached.specs.InRange.{IsInRange};

/// In a lawful system in range the records of each process, live or a zombie, have their fields in their ranges, and so
/// has the list of processes; of what a process has used another law says so.
pub fn records_of_lawful_systems_are_in_range()
    ensures { (s : TracedSystem) → IsLawfulSystem s → IsInRange s → AreRecordsInRange s }
{}

/// These records have their fields in their ranges in each state that a legal history leads to, from a lawful state in
/// range or from a first state, where controllers write bytes.
pub fn records_of_reached_states_are_in_range()
    ensures later { (n : ℕ) (s : TracedState) (h : List Entry) → StaysInRange s h → IsLegal n s h
        → AreRecordsInRange (state_after s h).system }
    ensures first { (n : ℕ) (programs : List Program) (files : List StoredFile) (spawns : List ℕ) (h : List Entry)
        → FirstStaysInRange programs files spawns h → IsLegal n (first_state programs files spawns) h
        → AreRecordsInRange (state_after (first_state programs files spawns) h).system }
{}
