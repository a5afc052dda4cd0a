ghost use Rattle.std.specs.Prelude.{◌≡◌, ℕ, Some};
ghost use Rattle.pr_model.specs.Erasure.{erased_process, erased_system};
ghost use Rattle.pr_model.specs.Handles.{released};
ghost use Rattle.pr_model.specs.LwpTurns.{LwpTurn, turn_of};
ghost use Rattle.pr_model.specs.Running.{with_run};
ghost use Rattle.pr_model.specs.State.{TracedProcess, TracedSystem, with_lwp};
ghost use Rattle.pr_model.specs.Stops.{directed, with_all_directed};
ghost use Rattle.pr_model.specs.declared.events.Did.TheVariants.{Stopped};

/// What controllers do to stop a process and to run it leaves everything that programs can see of it: directing an lwp
/// or all lwps to stop, PCRUN without flags, and its release when the last handle for writing is closed.
#[tactic(auto, using(crate::proofs::SeenHistories::HiddenLemmas::hidden))]
pub fn stopping_and_running_are_hidden()
    ensures directed_lwp { (id : ℕ) (p : TracedProcess) → erased_process (with_lwp id directed p) ≡ erased_process p }
    ensures directed { (p : TracedProcess) → erased_process (with_all_directed p) ≡ erased_process p }
    ensures run { (p : TracedProcess) → erased_process (with_run 0 p) ≡ erased_process p }
    ensures released { (p : TracedProcess) → erased_process (released p) ≡ erased_process p }
{}

/// An lwp that stops because it was directed to leaves everything that programs can see.
#[tactic(auto, using(crate::proofs::SeenHistories::HiddenLemmas::stops))]
pub fn directed_stop_is_hidden()
    ensures { (s : TracedSystem) (pid id : ℕ) (t : LwpTurn) → turn_of s pid id ≡ Some t → t.turned.did ≡ Stopped
        → erased_system t.system ≡ erased_system s }
{}
