ghost use Rattle.std.specs.Prelude.{◌≡◌, ℕ, List, Some, slice_get, true};
ghost use Rattle.pr_core.specs.Gcores.{GcoreState, first_gcore, has_ended};
ghost use Rattle.pr_model.specs.Legal.{state_after};
ghost use Rattle.pr_model.specs.State.{TracedState};
ghost use Rattle.pr_model.specs.declared.events.Entry.{Entry};
ghost use Rattle.pr_tool_laws.specs.Runs.{IsRunOf};
ghost use Rattle.pr_tool_laws.specs.ToolHandles.{HoldsOnly};
ghost use Rattle.pr_truss_laws.specs.Handles.{HasNothingOpen};
ghost use Rattle.pr_world.specs.ControllerStates as cores;
ghost use Rattle.pr_world.specs.ControllerStates.{ControllerState};
ghost use Rattle.pr_world.specs.Protocol.{controllers_at};

/// In a legal history where these controllers make their own calls, from a state in which it has nothing open, a gcore
/// has files of its own process alone open at any time, and none once it has finished, whether it was refused or not.
pub fn gcore_has_files_of_its_process_alone()
    ensures opens { (controllers : List ControllerState) (n k pid : ℕ) (s : TracedState) (h : List Entry)
        (g : GcoreState)
        → HasNothingOpen k s → IsRunOf n k (cores.Gcore (first_gcore pid)) controllers s h
        → slice_get (controllers_at controllers h) k ≡ Some (cores.Gcore g)
        → HoldsOnly k pid (state_after s h) }
    ensures closes { (controllers : List ControllerState) (n k pid : ℕ) (s : TracedState) (h : List Entry)
        (g : GcoreState)
        → HasNothingOpen k s → IsRunOf n k (cores.Gcore (first_gcore pid)) controllers s h
        → slice_get (controllers_at controllers h) k ≡ Some (cores.Gcore g)
        → has_ended g ≡ true → HasNothingOpen k (state_after s h) }
{}
