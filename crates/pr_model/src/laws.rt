ghost use Rattle.std.specs.Prelude.{◌≡◌, ◌≢◌, ℕ, List, [], ◌∷◌, ◌++◌, Some, None};
ghost use Rattle.pr_model.specs.FileNames.{file_name, file_of_name, mode_name, mode_of_name};
ghost use Rattle.pr_model.specs.declared.calls.File.{File as AnyFile};
ghost use Rattle.pr_model.specs.declared.calls.Mode.{Mode as AnyMode};
ghost use Rattle.pr_model.specs.Legal.{IsLegal, IsLegalEntry, after, state_after};
ghost use Rattle.pr_model.specs.State.{TracedState};
ghost use Rattle.std.specs.List.{flat_map};
ghost use Rattle.pr_model.specs.UntracedMachine.{traced_step};
ghost use Rattle.pr_model.specs.UntracedSteps.{nothing_yet, remembered_all, steps_of, untraced_steps, untraced_trace};
ghost use Rattle.pr_model.specs.declared.events.Entry.{Entry};

/// A history that grows by one entry leads to the state after that entry; it stays legal exactly where the entry is
/// legal in the state that it finds; and its untraced steps grow by those of the entry.
#[tactic(auto, using(crate::proofs::HistoryLemmas::one_longer))]
pub fn history_grows_at_its_end()
    ensures state { (s : TracedState) (h : List Entry) (e : Entry) → state_after s (h ++ e ∷ []) ≡ after (state_after s h) e }
    ensures legal { (n : ℕ) (s : TracedState) (h : List Entry) (e : Entry) → IsLegal n s h → IsLegalEntry n (state_after s h) e
        → IsLegal n s (h ++ e ∷ []) }
    ensures front { (n : ℕ) (s : TracedState) (h : List Entry) (e : Entry) → IsLegal n s (h ++ e ∷ []) → IsLegal n s h }
    ensures last { (n : ℕ) (s : TracedState) (h : List Entry) (e : Entry) → IsLegal n s (h ++ e ∷ [])
        → IsLegalEntry n (state_after s h) e }
    ensures steps { (h : List Entry) (e : Entry)
        → untraced_steps (h ++ e ∷ []) ≡ untraced_steps h ++ steps_of (remembered_all nothing_yet h) e }
{}

/// The trace of a history is the trace of its untraced steps.
#[tactic(auto, using(crate::proofs::HistoryLemmas::traces))]
pub fn trace_is_that_of_the_steps()
    ensures { (h : List Entry) → untraced_trace h ≡ flat_map traced_step (untraced_steps h) }
{}

/// Each file has its name, and no other file has it.
#[tactic(auto, using(crate::proofs::NameLemmas::names_of_files))]
pub fn file_names()
    ensures back { (f : AnyFile) → file_of_name (file_name f) ≡ Some f }
    ensures only { (bytes : List ℕ) (f : AnyFile) → file_of_name bytes ≡ Some f → bytes ≡ file_name f }
    ensures none { (bytes : List ℕ) (f : AnyFile) → file_of_name bytes ≡ None → bytes ≢ file_name f }
{}

/// Each way to open a file has its name, and no other has it.
#[tactic(auto, using(crate::proofs::NameLemmas::names_of_files))]
pub fn mode_names()
    ensures back { (m : AnyMode) → mode_of_name (mode_name m) ≡ Some m }
    ensures only { (bytes : List ℕ) (m : AnyMode) → mode_of_name bytes ≡ Some m → bytes ≡ mode_name m }
    ensures none { (bytes : List ℕ) (m : AnyMode) → mode_of_name bytes ≡ None → bytes ≢ mode_name m }
{}
