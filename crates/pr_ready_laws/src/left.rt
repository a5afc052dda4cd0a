//! What a step leaves of a process that it does not touch, and that no lwp of it comes to move so.
ghost use Rattle.std.specs.Prelude.{◌≡◌, ◌≢◌, ◌⊎◌, ℕ, Bool, true, false, Some};
ghost use Rattle.pr_model.specs.Calls.{Answer, answer_to};
ghost use Rattle.pr_model.specs.Lawful.{IsLawfulSystem};
ghost use Rattle.pr_model.specs.Legal.{ticked};
ghost use Rattle.pr_model.specs.LwpTurns.{LwpTurn, can_move, turn_of};
ghost use Rattle.pr_model.specs.State.{TracedLwp, TracedProcess, TracedState, TracedSystem, live_process, lwp_of};
ghost use Rattle.pr_model.specs.declared.calls.Call.{Call};
ghost use Rattle.pr_ready_laws.specs.Left.{HasLwp, IsLeft, waits};
ghost use Rattle.pr_ready_laws.specs.Reach.{changes_files, reach_of};
ghost use Rattle.pr_ready_laws.specs.Touched.{call_changes_files, call_touches, turn_touches};

/// An lwp of a process that was left as it was can move later only if it could before, or if it sleeps for files that
/// may differ, or until a moment to which the clock has come.
pub fn what_is_left_moves_only_if_it_could()
    ensures { (pid id : ℕ) (files clock : Bool) (s u : TracedSystem) → IsLeft pid files clock s u
        → can_move u pid id ≡ true
        → (can_move s pid id ≡ true) ⊎ HasLwp (waits files s.clock u.clock) s pid id }
{}

/// A turn of an lwp leaves each process that it does not touch.
pub fn turns_leave_what_they_do_not_touch()
    ensures { (s : TracedSystem) (pid acting id : ℕ) (t : LwpTurn) (p : TracedProcess) (l : TracedLwp)
        → IsLawfulSystem s → pid ≢ 0
        → turn_of s acting id ≡ Some t → live_process s acting ≡ Some p → lwp_of p id ≡ Some l
        → turn_touches s acting p l (reach_of t.turned.did) pid ≡ false
        → IsLeft pid (changes_files (reach_of t.turned.did)) false s t.system }
{}

/// A call of a controller leaves each process that it does not touch.
pub fn calls_leave_what_they_do_not_touch()
    ensures { (s : TracedState) (pid by : ℕ) (c : Call) (a : Answer) → pid ≢ 0 → answer_to s by c ≡ Some a
        → call_touches s by c pid ≡ false
        → IsLeft pid (call_changes_files c) false s.system a.state.system }
{}

/// A tick of the clock leaves every process.
pub fn ticks_leave_every_process()
    ensures { (pid : ℕ) (s : TracedSystem) → IsLeft pid false true s (ticked s) }
{}
