ghost use Rattle.std.specs.Prelude.{ℕ, List};
ghost use Rattle.pr_function_hides.specs.OwnSteps.{AreStepsOwn};
ghost use Rattle.pr_function_hides.specs.PassiveOthers.{AreOthersPassive};
ghost use Rattle.pr_function_hides.specs.RunsOfTrusses.{IsRunOfTrusses};
ghost use Rattle.pr_hidden.specs.Hiders.{Hiders};
ghost use Rattle.pr_model.specs.State.{TracedState};
ghost use Rattle.pr_model.specs.declared.events.Entry.{Entry};
ghost use Rattle.pr_probe_laws.specs.StepMarks.{IsUnstepped};
ghost use Rattle.pr_world.specs.ControllerStates.{ControllerState};

/// In a run of trusses that are undisturbed, from a state without step marks, in which each call of another one is
/// passive: an lwp incurs FLTTRACE only where such a truss has the control file of its process open. This is so also
/// once a truss was interrupted, and leaves its processes. The reason: who hides runs a process with PRSTEP only once
/// it has opened it whole, and has set PR_RLC of it; and so the close of the control file leaves no step mark.
#[tactic(auto, using(crate::proofs::StepMarks::StepLaw::steps))]
pub fn truss_alone_steps()
    ensures { (n : ℕ) (who : Hiders) (controllers : List ControllerState) (s : TracedState) (h : List Entry)
        → IsRunOfTrusses n who controllers s h → AreOthersPassive who h → IsUnstepped s.system
        → AreStepsOwn who s h }
{}
