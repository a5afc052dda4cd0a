ghost use Rattle.std.specs.Prelude.{◌≡◌, ℕ, List, Some};
ghost use Rattle.pr_num.specs.Programs.{Program};
ghost use Rattle.pr_num.specs.declared.files.StoredFile.{StoredFile};
ghost use Rattle.pr_model.specs.Calls.{Answer, answer_to};
ghost use Rattle.pr_model.specs.FirstState.{first_state};
ghost use Rattle.pr_model.specs.Lawful.{IsLawful};
ghost use Rattle.pr_model.specs.Legal.{IsLegal, state_after, ticked};
ghost use Rattle.pr_model.specs.LwpTurns.{LwpTurn, turn_of};
ghost use Rattle.pr_model.specs.State.{TracedState};
ghost use Rattle.pr_model.specs.declared.calls.Call.{Call};
ghost use Rattle.pr_model.specs.declared.events.Entry.{Entry};
ghost use Rattle.pr_lawful.specs.Starts.{IsStart};

/// The first state is lawful, where its files are in order and there is room for what is spawned.
pub fn the_first_state_is_lawful()
    ensures { (programs : List Program) (files : List StoredFile) (spawns : List ℕ) → IsStart programs files spawns
        → IsLawful (first_state programs files spawns) }
{}

/// Whatever a turn of an lwp does, a lawful state stays lawful.
pub fn turns_keep_states_lawful()
    ensures { (s : TracedState) (pid id : ℕ) (t : LwpTurn) → IsLawful s → turn_of s.system pid id ≡ Some t
        → IsLawful (record s { system = t.system }) }
{}

/// Whatever a controller calls, and whatever control message it writes, a lawful state stays lawful.
pub fn calls_keep_states_lawful()
    ensures { (s : TracedState) (by : ℕ) (c : Call) (a : Answer) → IsLawful s → answer_to s by c ≡ Some a
        → IsLawful a.state }
{}

/// A tick of the clock leaves a lawful state lawful.
pub fn ticks_keep_states_lawful()
    ensures { (s : TracedState) → IsLawful s → IsLawful (record s { system = ticked s.system }) }
{}

/// Every state that is reached is lawful: from a lawful state, and so from a first state, each legal history leads to a
/// lawful one.
pub fn reached_states_are_lawful()
    ensures later { (n : ℕ) (s : TracedState) (h : List Entry) → IsLawful s → IsLegal n s h → IsLawful (state_after s h) }
    ensures first { (n : ℕ) (programs : List Program) (files : List StoredFile) (spawns : List ℕ) (h : List Entry)
        → IsStart programs files spawns → IsLegal n (first_state programs files spawns) h
        → IsLawful (state_after (first_state programs files spawns) h) }
{}
