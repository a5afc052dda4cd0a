ghost use Rattle.std.specs.Prelude.{ℕ, List};
ghost use Rattle.pr_function_hides.specs.PassiveOthers.{AreOthersPassive};
ghost use Rattle.pr_function_hides.specs.RunsOfTrusses.{IsRunOfTrusses};
ghost use Rattle.pr_function_hides.specs.TidyFaults.{ClearsOwnFaultsAlone, PostsNoOwnFault};
ghost use Rattle.pr_hidden.specs.Hiders.{Hiders};
ghost use Rattle.pr_model.specs.State.{TracedState};
ghost use Rattle.pr_model.specs.declared.events.Entry.{Entry};
ghost use Rattle.pr_probe_laws.specs.StepMarks.{IsUnstepped};
ghost use Rattle.pr_world.specs.ControllerStates.{ControllerState};

/// In a run of trusses that are undisturbed, from a state without step marks, in which each call of another one is
/// passive: no fault of a truss's own is posted. An lwp that meets one stops on it, since truss traces all faults, and
/// stands there until truss clears it; and as long as stops are left in a process that stood there before truss came,
/// the process stands still, so that none of its lwps meets one. This is so also once a truss was interrupted: while it
/// leaves a process nothing runs an lwp that stands on a stop, until truss closes the control file.
#[tactic(auto, using(crate::proofs::FaultStops::PostedLaw::posts))]
pub fn truss_posts_no_own_fault()
    ensures { (n : ℕ) (who : Hiders) (controllers : List ControllerState) (s : TracedState) (h : List Entry)
        → IsRunOfTrusses n who controllers s h → AreOthersPassive who h → IsUnstepped s.system
        → PostsNoOwnFault who s h }
{}

/// In a run of trusses that are undisturbed: each PCRUN with PRCFAULT, PRSTEP or both of one of them, and each
/// PCCFAULT, finds no fault but one of those who hide, whether or not they are interrupted. Truss sends PCRUN so where
/// the status that it has read tells of FLTTRACE, or of FLTBPT at a function that it has marked as planted or lifted
/// for a step, or of an lwp that comes to a fork, a vfork or an exec; and PCCFAULT where it leaves a process, if its
/// last look at the lwps tells of one of the two faults. An lwp that meets one of the two once truss has opened its
/// process counts as standing at it; while a breakpoint is lifted the code of its function stands there, and no FLTBPT
/// comes of that.
#[tactic(auto, using(crate::proofs::LeavingFaults::ClearedLaw::clears_own))]
pub fn truss_clears_its_own_faults_alone()
    ensures { (n : ℕ) (who : Hiders) (controllers : List ControllerState) (s : TracedState) (h : List Entry)
        → IsRunOfTrusses n who controllers s h → ClearsOwnFaultsAlone who s h }
{}
