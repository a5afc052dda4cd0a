ghost use Rattle.std.specs.Prelude.{ℕ, List};
ghost use Rattle.pr_function_hides.specs.PassiveOthers.{AreOthersPassive};
ghost use Rattle.pr_function_hides.specs.RunsOfTrusses.{IsRunOfTrusses};
ghost use Rattle.pr_function_hides.specs.TidyCloses.{LeavesNoBreakpoint, LeavesNoFault};
ghost use Rattle.pr_hidden.specs.Hiders.{Hiders};
ghost use Rattle.pr_model.specs.State.{TracedState};
ghost use Rattle.pr_model.specs.declared.events.Entry.{Entry};
ghost use Rattle.pr_probe_laws.specs.StepMarks.{IsUnstepped};
ghost use Rattle.pr_world.specs.ControllerStates.{ControllerState};

/// In a run of trusses that are undisturbed: wherever one of them closes a file of a process that lives, no breakpoint
/// stands there; and no agent is ever hidden. The reasons: it closes one that lives only where its opening was refused,
/// or where it leaves its processes, once a wait of it was interrupted. It lifts first what it had planted; in a process
/// whose opening had not come to its stop that is nothing. Any other process of which it closes a file has ended.
#[tactic(auto, using(crate::proofs::Closing::ClosingLaw::leaves))]
pub fn truss_leaves_no_breakpoint()
    ensures { (n : ℕ) (who : Hiders) (controllers : List ControllerState) (s : TracedState) (h : List Entry)
        → IsRunOfTrusses n who controllers s h → LeavesNoBreakpoint who s h }
{}

/// In such a run from a state without step marks, where each call of another one is passive: wherever such a truss
/// closes a file of a process that lives, no lwp of it that is at a fault counts as standing at one of the truss's own,
/// whether or not truss was interrupted; and until it is, none counts so at all. Until a process is opened whole no
/// step mark is set in it, and while a breakpoint stands in it each lwp of it stands still, or stops before it does
/// anything else. Where truss leaves a process it waits for the stop and looks at the lwps; if one stands at a fault of
/// its own, that is the event it is told of, and it clears it before it closes a file.
#[tactic(auto, using(crate::proofs::Clean::CleanLaw::no_fault))]
pub fn truss_leaves_no_fault()
    ensures { (n : ℕ) (who : Hiders) (controllers : List ControllerState) (s : TracedState) (h : List Entry)
        → IsRunOfTrusses n who controllers s h → AreOthersPassive who h
        → IsUnstepped s.system → LeavesNoFault who s h }
{}
