ghost use Rattle.std.specs.Prelude.{ℕ, List};
ghost use Rattle.pr_function_hides.specs.RunsOfTrusses.{IsRunOfTrusses};
ghost use Rattle.pr_function_hides.specs.TidyWrites.{WritesTidily};
ghost use Rattle.pr_hidden.specs.Hiders.{Hiders};
ghost use Rattle.pr_model.specs.State.{TracedState};
ghost use Rattle.pr_model.specs.declared.events.Entry.{Entry};
ghost use Rattle.pr_world.specs.ControllerStates.{ControllerState};

/// In a run of trusses that are undisturbed: each PCWRITE of one of them is tidy, so programs have the memory after it
/// that they had before; what each turn changes is tidy, and whom a controller kills; and the breakpoints that stand in
/// a process that it traces are those that its marks say, of the functions at one address that of the first alone. So
/// it is also while it leaves its processes, once a wait of it was interrupted. Where it plants one the code of the
/// function stands: truss has read it, or lifted the breakpoint, and nobody has written there meanwhile.
#[tactic(auto, using(crate::proofs::Tidy::WritesLaw::tidily))]
pub fn truss_writes_tidily()
    ensures { (n : ℕ) (who : Hiders) (controllers : List ControllerState) (s : TracedState) (h : List Entry)
        → IsRunOfTrusses n who controllers s h → WritesTidily who controllers s h }
{}
