ghost use Rattle.std.specs.Prelude.{◌≡◌, ◌<◌, ℕ, List, Some};
ghost use Rattle.pr_num.specs.Limits.{clock_limit};
ghost use Rattle.pr_num.specs.Programs.{Program};
ghost use Rattle.pr_num.specs.declared.files.StoredFile.{StoredFile};
ghost use Rattle.pr_model.specs.Calls.{Answer, answer_to};
ghost use Rattle.pr_model.specs.FirstState.{first_state};
ghost use Rattle.pr_model.specs.Lawful.{IsLawfulSystem};
ghost use Rattle.pr_model.specs.Legal.{IsLegal, state_after, ticked};
ghost use Rattle.pr_model.specs.LwpTurns.{LwpTurn, turn_of};
ghost use Rattle.pr_model.specs.State.{TracedState, TracedSystem};
ghost use Rattle.pr_model.specs.declared.calls.Call.{Call};
ghost use Rattle.pr_model.specs.declared.events.Entry.{Entry};
ghost use Rattle.pr_reached.specs.ByteHistories.{IsOfBytes};
ghost use Rattle.pr_reached.specs.HistoriesInRange.{FirstStaysInRange, StaysInRange};
ghost use Rattle.pr_reached.specs.InRange.{IsInRange, IsStartInRange};

/// The first state is in range, where its programs and its files are.
pub fn the_first_state_is_in_range()
    ensures { (programs : List Program) (files : List StoredFile) (spawns : List ℕ) → IsStartInRange programs files
        → IsInRange (first_state programs files spawns).system }
{}

/// Whatever a turn of an lwp does, and whatever system call it makes, a lawful system in range stays in range.
pub fn turns_keep_states_in_range()
    ensures { (s : TracedSystem) (pid id : ℕ) (t : LwpTurn) → IsLawfulSystem s → IsInRange s
        → turn_of s pid id ≡ Some t → IsInRange t.system }
{}

/// Whatever a controller calls, and whatever control message it writes, a system in range stays in range, where what it
/// writes is bytes.
pub fn calls_keep_states_in_range()
    ensures { (s : TracedState) (by : ℕ) (c : Call) (a : Answer) → IsInRange s.system → IsOfBytes c
        → answer_to s by c ≡ Some a → IsInRange a.state.system }
{}

/// A tick of the clock, which goes on below its last moment alone, leaves a system in range.
pub fn ticks_keep_states_in_range()
    ensures { (s : TracedSystem) → s.clock < clock_limit → IsInRange s → IsInRange (ticked s) }
{}

/// Every state that is reached is in range: each legal history in which controllers write bytes leads from a lawful
/// state in range to one in range, and so from a first state.
pub fn reached_states_are_in_range()
    ensures later { (n : ℕ) (s : TracedState) (h : List Entry) → StaysInRange s h → IsLegal n s h
        → IsInRange (state_after s h).system }
    ensures first { (n : ℕ) (programs : List Program) (files : List StoredFile) (spawns : List ℕ) (h : List Entry)
        → FirstStaysInRange programs files spawns h → IsLegal n (first_state programs files spawns) h
        → IsInRange (state_after (first_state programs files spawns) h).system }
{}
