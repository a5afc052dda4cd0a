ghost use Rattle.std.specs.Prelude.{◌≡◌, ℕ, None, Some, true, false, slice_set};
ghost use Rattle.pr_num.specs.Control.{has_flags, rlc_mode, klc_mode};
ghost use Rattle.pr_laws.specs.LastCloses.{IsReleased};
ghost use Rattle.pr_model.specs.Handles.{has_writer, was_last_writer, with_closed};
ghost use Rattle.pr_model.specs.State.{TracedState, TracedProcess, live_process};
ghost use Rattle.pr_model.specs.declared.handles.Held.{Held};

/// Right after the last handle for writing was closed on a process that runs then (PR_RLC) and is not killed
/// (PR_KLC), it is live, and nothing of what controllers set is left but its modes.
#[tactic(auto, using(crate::proofs::CloseLemmas::last_closes))]
pub fn nothing_is_left_after_the_last_close()
    ensures writers { (s : TracedState) (h : Held) (number : ℕ)
        → was_last_writer h (slice_set s.opens number None) ≡ true
        → has_writer h.pid (with_closed h number s).opens ≡ false }
    ensures released { (s : TracedState) (h : Held) (number : ℕ) (p : TracedProcess)
        → was_last_writer h (slice_set s.opens number None) ≡ true → live_process s.system h.pid ≡ Some p
        → has_flags p.control.modes rlc_mode ≡ true → has_flags p.control.modes klc_mode ≡ false
        → (q : TracedProcess) × ((live_process (with_closed h number s).system h.pid ≡ Some q) × IsReleased q) }
{}
