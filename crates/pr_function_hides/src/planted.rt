ghost use Rattle.std.specs.Prelude.{◌≡◌, ℕ, true, List, Some};
ghost use Rattle.std.specs.List.{slice_get};
ghost use Rattle.pr_hidden.specs.Hiders.{Hiders, hides};
ghost use Rattle.pr_hidden.specs.Tidiness.{IsSparing};
ghost use Rattle.pr_line.specs.declared.options.Options.{Options};
ghost use Rattle.pr_model.specs.State.{TracedState};
ghost use Rattle.pr_model.specs.declared.events.Entry.{Entry};
ghost use Rattle.pr_truss.specs.Trusses.{first_truss};
ghost use Rattle.pr_world.specs.ControllerStates.{ControllerState, FnTruss};
ghost use Rattle.pr_function_laws.specs.ReachedRuns.{IsReachedFunctionRun};
ghost use Rattle.pr_function_laws.specs.Opened.{IsFunctionRun};
ghost use Rattle.pr_function_hides.specs.FunctionHiders.{ArePatchable};
ghost use Rattle.pr_function_hides.specs.ListedCalls.{FetchesBreakpoints};
ghost use Rattle.pr_function_hides.specs.PlantedBreakpoints.{LeavesPlanted};
ghost use Rattle.pr_function_hides.specs.RunsOfTrusses.{IsRunOfTrusses};

/// What an lwp can fetch where a function begins whose breakpoint is planted, as truss's marks say, is the instruction
/// of a breakpoint, also where truss is interrupted and leaves its processes. So it is in each legal history from a
/// state that the machine reaches, in which controllers write bytes, whatever else programs and others do, as long as
/// the lwps of a process leave the functions alone that are marked as planted there. It is so too where an lwp is in a
/// fork, a vfork or an exec when truss comes: a fork leaves its parent's memory alone; and the exit from a vfork or an
/// exec is traced before anything is planted, so that no lwp of the process can run until truss has read that the
/// memory was lent or replaced. This is said where the functions stand where instructions do, begin with one that is no
/// breakpoint, and those at one address with the same one.
#[tactic(auto, using(crate::proofs::PlantedFetches::FetchesLaw::fetches_breakpoints))]
pub fn what_is_fetched_at_a_planted_function_is_a_breakpoint()
    ensures { (n k : ℕ) (o : Options) (s : TracedState) (h : List Entry) → IsReachedFunctionRun n k o s h
        → ArePatchable o → LeavesPlanted k o s h → FetchesBreakpoints k o s h }
{}

/// In a run of trusses that are undisturbed, programs that leave the breakpoints alone which stand leave alone each
/// function that such a truss has marked as planted in their process.
#[tactic(auto, using(crate::proofs::PlantedFetches::SparedLaw::leaves_planted))]
pub fn who_spares_breakpoints_leaves_planted_functions_alone()
    ensures { (n k : ℕ) (who : Hiders) (controllers : List ControllerState) (o : Options) (s : TracedState)
        (h : List Entry) → IsFunctionRun n k o s h → IsRunOfTrusses n who controllers s h → hides who k ≡ true
        → slice_get controllers k ≡ Some (FnTruss (first_truss o)) → IsSparing who s h → LeavesPlanted k o s h }
{}
