//! Laws of the sets. Each function does nothing: its clauses are what is proved.
ghost use Rattle.std.specs.Prelude.{◌≡◌, ◌≢◌, ◌==◌, ◌||◌, ◌&&◌, ℕ, Bool, true, false, Some};
ghost use Rattle.pr_model.specs.Calls.{Answer, answer_to};
ghost use Rattle.pr_model.specs.Lawful.{IsLawful, IsLawfulSystem};
ghost use Rattle.pr_model.specs.Legal.{ticked};
ghost use Rattle.pr_model.specs.LwpTurns.{LwpTurn, turn_of};
ghost use Rattle.pr_model.specs.State.{TracedState, TracedSystem};
ghost use Rattle.pr_model.specs.declared.calls.Call.{Call};
ghost use Rattle.pr_model.specs.declared.events.Did.TheVariants.{Ran};
ghost use Rattle.pr_ready.specs.Around.{is_around};
ghost use Rattle.pr_ready.specs.Following.{around_call, around_lwp};
ghost use Rattle.pr_ready.specs.Queues.{AreReady, IsQueue, is_movable, queue_of};
ghost use Rattle.pr_ready.specs.Ready.{ReadySets};
ghost use Rattle.pr_ready.specs.Steps.{KeepsUp};
ghost use Rattle.pr_ready_laws.specs.Left.{IsLeft};
ghost use Rattle.pr_ready_laws.specs.Reach.{changes_files, reach_of, reaches_around};
ghost use Rattle.pr_ready_laws.specs.Touched.{call_changes_files};

/// The live lwps of the processes that are looked at are sorted, without repeats, and every lwp that can have a turn is
/// among them.
pub fn the_queue_is_in_order()
    ensures { (s : TracedSystem) (r : ReadySets) → IsLawfulSystem s → AreReady s r → IsQueue s (queue_of s r) }
{}

/// Sets that follow a step have every process that they have to have, where the step leaves each process that it does
/// not touch.
pub fn the_sets_follow_each_step()
    ensures { (touches : ℕ → Bool) (files clock : Bool) (s u : TracedSystem) (old new : ReadySets) → IsLawfulSystem u
        → KeepsUp touches files clock (is_movable u) u old new → AreReady s old
        → ((pid : ℕ) → pid ≢ 0 → touches pid ≡ false → IsLeft pid files clock s u) → AreReady u new }
{}

/// So sets that have every process that they have to have, and that follow a turn, a call or a tick, have every such
/// process after it. After a turn in which its lwp only ran they have it as they are.
pub fn the_sets_stay_ready()
    ensures turns { (s : TracedSystem) (pid id : ℕ) (t : LwpTurn) (old new : ReadySets) → IsLawfulSystem s
        → turn_of s pid id ≡ Some t
        → KeepsUp
        (λ other. (pid == other)
        || (reaches_around (reach_of t.turned.did) && is_around (around_lwp s pid id) other))
        (changes_files (reach_of t.turned.did)) false (is_movable t.system) t.system old new
        → AreReady s old → AreReady t.system new }
    ensures runs { (s : TracedSystem) (pid id : ℕ) (t : LwpTurn) (sets : ReadySets) → IsLawfulSystem s
        → turn_of s pid id ≡ Some t → t.turned.did ≡ Ran → AreReady s sets → AreReady t.system sets }
    ensures calls { (s : TracedState) (by : ℕ) (c : Call) (a : Answer) (old new : ReadySets) → IsLawful s
        → answer_to s by c ≡ Some a
        → KeepsUp (is_around (around_call s by c)) (call_changes_files c) false
        (is_movable a.state.system) a.state.system old new
        → AreReady s.system old → AreReady a.state.system new }
    ensures ticks { (s : TracedSystem) (old new : ReadySets) → IsLawfulSystem (ticked s)
        → KeepsUp (λ other. false) false true (is_movable (ticked s)) (ticked s) old new → AreReady s old
        → AreReady (ticked s) new }
{}
