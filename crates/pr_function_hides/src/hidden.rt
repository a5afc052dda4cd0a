ghost use Rattle.std.specs.Prelude.{ℕ, List};
ghost use Rattle.pr_erasure.specs.Untouched.{IsUntouched};
ghost use Rattle.pr_function_hides.specs.PassiveOthers.{AreOthersPassive};
ghost use Rattle.pr_function_hides.specs.RunsOfTrusses.{IsRunOfTrusses};
ghost use Rattle.pr_hidden.specs.HiddenSteps.{IsHidden};
ghost use Rattle.pr_hidden.specs.Hiders.{Hiders};
ghost use Rattle.pr_hidden.specs.Tidiness.{IsSparing, IsTidy};
ghost use Rattle.pr_model.specs.State.{TracedState};
ghost use Rattle.pr_model.specs.declared.events.Entry.{Entry};
ghost use Rattle.pr_probe_laws.specs.StepMarks.{IsUnstepped};
ghost use Rattle.pr_world.specs.ControllerStates.{ControllerState};

/// In a run of trusses that are undisturbed, from a state without step marks, in which each call of another one is
/// passive: each of them is tidy, whether or not it is interrupted. So from a state that nobody has touched, where
/// programs leave its breakpoints alone, programs see nothing of it: the steps that are not hidden are a run of the
/// machine without controllers, whose trace is that of the history without what is hidden.
#[tactic(auto, using(crate::proofs::HiddenTruss::truss_hides))]
pub fn truss_is_hidden()
    ensures tidy { (n : ℕ) (who : Hiders) (controllers : List ControllerState) (s : TracedState) (h : List Entry)
        → IsRunOfTrusses n who controllers s h → AreOthersPassive who h → IsUnstepped s.system → IsTidy who s h }
    ensures hidden { (n : ℕ) (who : Hiders) (controllers : List ControllerState) (s : TracedState) (h : List Entry)
        → IsRunOfTrusses n who controllers s h → AreOthersPassive who h
        → IsUntouched s.system → IsSparing who s h → IsHidden who s h }
{}
