//! Which lwps come to move by a step.
ghost use Rattle.std.specs.Prelude.{◌≡◌, ◌==◌, ◌⊎◌, ◌+◌, ℕ, true, false, Some};
ghost use Rattle.pr_model.specs.Calls.{Answer, answer_to};
ghost use Rattle.pr_model.specs.Lawful.{IsLawful, IsLawfulSystem};
ghost use Rattle.pr_model.specs.Legal.{ticked};
ghost use Rattle.pr_model.specs.LwpTurns.{LwpTurn, can_move, turn_of};
ghost use Rattle.pr_model.specs.State.{TracedLwp, TracedProcess, TracedState, TracedSystem, live_process, lwp_of};
ghost use Rattle.pr_model.specs.declared.calls.Call.{Call};
ghost use Rattle.pr_ready_laws.specs.Left.{HasLwp, waits};
ghost use Rattle.pr_ready_laws.specs.Reach.{changes_files, itself, reach_of, to_pipes};
ghost use Rattle.pr_ready_laws.specs.Touched.{call_changes_files, call_touches, turn_touches};

/// After a turn an lwp of a process that the turn does not touch can move only if it could before, or if it sleeps at a
/// pipe and files may differ.
pub fn turns_let_only_few_move()
    ensures { (s : TracedSystem) (pid acting id other : ℕ) (t : LwpTurn) (p : TracedProcess) (l : TracedLwp)
        → IsLawfulSystem s
        → turn_of s acting id ≡ Some t → live_process s acting ≡ Some p → lwp_of p id ≡ Some l
        → turn_touches s acting p l (reach_of t.turned.did) pid ≡ false → can_move t.system pid other ≡ true
        → (can_move s pid other ≡ true)
        ⊎ HasLwp (waits (changes_files (reach_of t.turned.did)) s.clock s.clock) s pid other }
{}

/// A turn that does not reach around its process, as all but those that make or end a process, run a program or send a
/// signal, touches that process alone.
pub fn most_turns_touch_one_process()
    ensures itself { (s : TracedSystem) (pid other : ℕ) (p : TracedProcess) (l : TracedLwp)
        → turn_touches s pid p l itself other ≡ (pid == other) }
    ensures to_pipes { (s : TracedSystem) (pid other : ℕ) (p : TracedProcess) (l : TracedLwp)
        → turn_touches s pid p l to_pipes other ≡ (pid == other) }
{}

/// After a call of a controller an lwp of a process that the call does not touch can move only if it could before, or
/// if it sleeps at a pipe and files may differ.
pub fn calls_let_only_few_move()
    ensures { (s : TracedState) (pid by id : ℕ) (c : Call) (a : Answer) → IsLawful s → answer_to s by c ≡ Some a
        → call_touches s by c pid ≡ false → can_move a.state.system pid id ≡ true
        → (can_move s.system pid id ≡ true)
        ⊎ HasLwp (waits (call_changes_files c) s.system.clock s.system.clock) s.system pid id }
{}

/// After a tick of the clock an lwp can move only if it could before, or if it sleeps in the call sleep until the
/// moment that has come.
pub fn ticks_let_only_those_that_doze_move()
    ensures { (s : TracedSystem) (pid id : ℕ) → can_move (ticked s) pid id ≡ true
        → (can_move s pid id ≡ true) ⊎ HasLwp (waits false s.clock (s.clock + 1)) s pid id }
{}
