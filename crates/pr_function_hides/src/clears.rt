ghost use Rattle.std.specs.Prelude.{ℕ, List};
ghost use Rattle.pr_function_hides.specs.ClearedFaults.{ClearByRunning};
ghost use Rattle.pr_function_hides.specs.RunsOfTrusses.{IsRunOfTrusses};
ghost use Rattle.pr_hidden.specs.Hiders.{Hiders};
ghost use Rattle.pr_model.specs.State.{TracedState};
ghost use Rattle.pr_model.specs.declared.events.Entry.{Entry};
ghost use Rattle.pr_world.specs.ControllerStates.{ControllerState};

/// In a run of trusses that are undisturbed none of them sends PCCFAULT before a call of its own was interrupted. The
/// reason: until then it clears a fault with PCRUN as it runs the process; only one that was interrupted leaves a
/// process without running it, but where the opening was refused.
#[tactic(auto, using(crate::proofs::MetFaults::ClearingLaw::clears))]
pub fn truss_clears_by_running()
    ensures { (n : ℕ) (who : Hiders) (controllers : List ControllerState) (s : TracedState) (h : List Entry)
        → IsRunOfTrusses n who controllers s h → ClearByRunning who h }
{}
