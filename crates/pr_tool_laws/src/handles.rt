ghost use Rattle.std.specs.Prelude.{◌≡◌, ℕ, List, Some, slice_get, true};
ghost use Rattle.pr_model.specs.Legal.{state_after};
ghost use Rattle.pr_model.specs.State.{TracedState};
ghost use Rattle.pr_model.specs.declared.events.Entry.{Entry};
ghost use Rattle.pr_model.specs.declared.tools.ToolKind.{ToolKind};
ghost use Rattle.pr_tool_laws.specs.ToolHandles.{HoldsOnly, LeavesTheSystem, only_reads};
ghost use Rattle.pr_tools.specs.Tools.{ToolState, first_tool, has_ended};
ghost use Rattle.pr_truss_laws.specs.Handles.{HasNothingOpen};
ghost use Rattle.pr_world.specs.ControllerStates.{ControllerState};
ghost use Rattle.pr_world.specs.ControllerStates as cores;
ghost use Rattle.pr_world.specs.Protocol.{controllers_at};
ghost use Rattle.pr_tool_laws.specs.Runs.{IsRunOf};

/// In a legal history where these controllers make their own calls, from a state in which it has nothing open, a tool
/// has files of its own process alone open at any time, and so sends its messages to that process alone.
pub fn tools_open_their_own_process_alone()
    ensures { (controllers : List ControllerState) (n k : ℕ) (kind : ToolKind) (pid : ℕ) (s : TracedState)
        (h : List Entry) (t : ToolState)
        → HasNothingOpen k s → IsRunOf n k (cores.Tool (first_tool kind pid)) controllers s h
        → slice_get (controllers_at controllers h) k ≡ Some (cores.Tool t) → HoldsOnly k pid (state_after s h) }
{}

/// In such a history pflags, psig, pmap, pfiles, pwait and ptree leave the system as it was by each of their calls: all
/// that programs see, and all that is set on processes.
pub fn tools_that_read_leave_the_system()
    ensures { (controllers : List ControllerState) (n k : ℕ) (kind : ToolKind) (pid : ℕ) (s : TracedState)
        (h : List Entry) (t : ToolState) → HasNothingOpen k s → only_reads kind ≡ true
        → IsRunOf n k (cores.Tool (first_tool kind pid)) controllers s h
        → slice_get (controllers_at controllers h) k ≡ Some (cores.Tool t) → LeavesTheSystem k s h }
{}

/// In such a history a tool that has finished, whether it was refused or not, has nothing open any more.
pub fn tools_that_have_finished_have_nothing_open()
    ensures { (controllers : List ControllerState) (n k : ℕ) (kind : ToolKind) (pid : ℕ) (s : TracedState)
        (h : List Entry) (t : ToolState)
        → HasNothingOpen k s → IsRunOf n k (cores.Tool (first_tool kind pid)) controllers s h
        → slice_get (controllers_at controllers h) k ≡ Some (cores.Tool t) → has_ended t ≡ true
        → HasNothingOpen k (state_after s h) }
{}
