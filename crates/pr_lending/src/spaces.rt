ghost use Rattle.std.specs.Prelude.{◌≡◌, ℕ, List, None, Some, map};
ghost use Rattle.pr_num.specs.Programs.{Program};
ghost use Rattle.pr_num.specs.declared.files.StoredFile.{StoredFile};
ghost use Rattle.pr_model.specs.FirstState.{first_state};
ghost use Rattle.pr_model.specs.Lawful.{IsLawfulSystem};
ghost use Rattle.pr_model.specs.Legal.{IsLegal, state_after};
ghost use Rattle.pr_lending.specs.Lending.{AreLending};
ghost use Rattle.pr_model.specs.Messages.{read_answer};
ghost use Rattle.pr_model.specs.Readers.{space_seen};
ghost use Rattle.pr_model.specs.Reads.{file_reply};
ghost use Rattle.pr_model.specs.Records.{map_entry_of, map_of, psinfo_of};
ghost use Rattle.pr_model.specs.State.{TracedProcess, TracedSystem, process_of};
ghost use Rattle.pr_model.specs.Statuses.{status_of};
ghost use Rattle.pr_model.specs.declared.calls.File.TheVariants as file;
ghost use Rattle.pr_model.specs.declared.events.Entry.{Entry};
ghost use Rattle.pr_lawful.specs.Starts.{IsStart};
ghost use Rattle.pr_lending.specs.Loans.{HasLentTo, ShowsSpaceOf};

/// A process that has not lent its memory shows its own.
pub fn owners_show_their_own_space()
    ensures { (s : TracedSystem) (p : TracedProcess) → p.borrower ≡ None → space_seen s p ≡ p.space }
{}

/// A process that has lent its memory shows what its borrower shows, until it has its memory back: in a lawful system
/// that lends in order, and so in every state that is reached.
pub fn lenders_show_the_space_of_their_borrowers()
    ensures lawful { (s : TracedSystem) (a b : ℕ) (p q : TracedProcess) → IsLawfulSystem s → AreLending s → HasLentTo s a p b q
        → space_seen s p ≡ space_seen s q }
    ensures reached { (n : ℕ) (programs : List Program) (files : List StoredFile) (spawns : List ℕ) (h : List Entry) (a b : ℕ)
        (p q : TracedProcess)
        → IsStart programs files spawns → IsLegal n (first_state programs files spawns) h
        → HasLentTo (state_after (first_state programs files spawns) h).system a p b q
        → space_seen (state_after (first_state programs files spawns) h).system p
        ≡ space_seen (state_after (first_state programs files spawns) h).system q }
{}

/// So controllers read of it what they read of its borrower: by "as" and by PCREAD the same bytes, in "map" the same
/// mappings, under the name of its own program, and in "psinfo" and "status" the same sizes.
pub fn lenders_are_read_as_their_borrowers()
    ensures bytes { (s : TracedSystem) (a b : ℕ) (p q : TracedProcess) (id other from len : ℕ) → IsLawfulSystem s → AreLending s
        → HasLentTo s a p b q
        → file_reply s a p id from len file.Mem ≡ file_reply s b q other from len file.Mem }
    ensures message { (s : TracedSystem) (a b : ℕ) (p q : TracedProcess) (at size : ℕ) → IsLawfulSystem s → AreLending s
        → HasLentTo s a p b q
        → read_answer s a p at size ≡ read_answer s b q at size }
    ensures mappings { (s : TracedSystem) (a b : ℕ) (p q : TracedProcess) → IsLawfulSystem s → AreLending s → HasLentTo s a p b q
        → map_of s p ≡ map (map_entry_of p.program) (space_seen s q) }
    ensures mapped { (s : TracedSystem) (a b : ℕ) (p q : TracedProcess) → IsLawfulSystem s → AreLending s → HasLentTo s a p b q
        → (psinfo_of s a p).mapped ≡ (psinfo_of s b q).mapped }
    ensures heap { (s : TracedSystem) (a b : ℕ) (p q : TracedProcess) → IsLawfulSystem s → AreLending s → HasLentTo s a p b q
        → (status_of s a p).heap_size ≡ (status_of s b q).heap_size }
{}

/// However often it was lent on, the memory that a process shows is that of one process that has it to itself.
pub fn each_space_shown_is_of_one_process()
    ensures { (s : TracedSystem) (a : ℕ) (p : TracedProcess) → IsLawfulSystem s → AreLending s → process_of s a ≡ Some p
        → (b : ℕ) × (q : TracedProcess) × ShowsSpaceOf s p b q }
{}
