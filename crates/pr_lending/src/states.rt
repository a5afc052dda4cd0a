ghost use Rattle.std.specs.Prelude.{◌≡◌, ℕ, List, Some};
ghost use Rattle.pr_num.specs.Programs.{Program};
ghost use Rattle.pr_num.specs.declared.files.StoredFile.{StoredFile};
ghost use Rattle.pr_model.specs.Calls.{Answer, answer_to};
ghost use Rattle.pr_model.specs.FirstState.{first_state};
ghost use Rattle.pr_model.specs.Lawful.{IsLawful, IsLawfulSystem};
ghost use Rattle.pr_model.specs.Legal.{IsLegal, state_after, ticked};
ghost use Rattle.pr_lending.specs.Lending.{AreLending};
ghost use Rattle.pr_model.specs.LwpTurns.{LwpTurn, turn_of};
ghost use Rattle.pr_model.specs.State.{TracedState, TracedSystem};
ghost use Rattle.pr_model.specs.declared.calls.Call.{Call};
ghost use Rattle.pr_model.specs.declared.events.Entry.{Entry};
ghost use Rattle.pr_lawful.specs.Starts.{IsStart};

/// In the first state nothing is lent, and so memory is lent in order.
pub fn the_first_state_lends_in_order()
    ensures { (programs : List Program) (files : List StoredFile) (spawns : List ℕ)
        → AreLending (first_state programs files spawns).system }
{}

/// Whatever a turn of an lwp does, and whatever system call it makes, memory stays lent in order.
pub fn turns_keep_lending_in_order()
    ensures { (s : TracedSystem) (pid id : ℕ) (t : LwpTurn) → IsLawfulSystem s → AreLending s
        → turn_of s pid id ≡ Some t → AreLending t.system }
{}

/// Whatever a controller calls, and whatever control message it writes, memory stays lent in order.
pub fn calls_keep_lending_in_order()
    ensures { (s : TracedState) (by : ℕ) (c : Call) (a : Answer) → IsLawfulSystem s.system → AreLending s.system
        → answer_to s by c ≡ Some a
        → AreLending a.state.system }
{}

/// A tick of the clock leaves memory lent in order.
pub fn ticks_keep_lending_in_order()
    ensures { (s : TracedSystem) → AreLending s → AreLending (ticked s) }
{}

/// Memory is lent in order in every state that is reached: after each legal history from a lawful state where it is,
/// and so from a first state.
pub fn legal_histories_lend_in_order()
    ensures later { (n : ℕ) (s : TracedState) (h : List Entry) → IsLawful s → AreLending s.system → IsLegal n s h
        → AreLending (state_after s h).system }
    ensures first { (n : ℕ) (programs : List Program) (files : List StoredFile) (spawns : List ℕ) (h : List Entry)
        → IsStart programs files spawns → IsLegal n (first_state programs files spawns) h
        → AreLending (state_after (first_state programs files spawns) h).system }
{}
