ghost use Rattle.std.specs.Prelude.{◌≡◌, ℕ, List, Some, slice_get, true};
ghost use Rattle.pr_model.specs.Legal.{state_after};
ghost use Rattle.pr_model.specs.State.{TracedState};
ghost use Rattle.pr_model.specs.declared.events.Entry.{Entry};
ghost use Rattle.pr_probe.specs.Probes.{ProbeState, first_probe, has_ended};
ghost use Rattle.pr_probe_laws.specs.ProbeCalls.{MakesProbeCalls};
ghost use Rattle.pr_tool_laws.specs.Runs.{IsRunOf};
ghost use Rattle.pr_tool_laws.specs.ToolHandles.{HoldsOnly};
ghost use Rattle.pr_truss_laws.specs.Handles.{HasNothingOpen};
ghost use Rattle.pr_world.specs.ControllerStates as cores;
ghost use Rattle.pr_world.specs.ControllerStates.{ControllerState};
ghost use Rattle.pr_world.specs.Protocol.{controllers_at};

/// In a legal history where these controllers make their own calls each call of an apfiles, refused or not, finished
/// or not, is one of its table: it opens one of six files of its process or of the agent, reads those, waits and polls,
/// and closes them; to the process it sends PCSTOP, PCREAD and PCWRITE of the two places that its agent uses, with as
/// many bytes as it read there, the four messages that set what is traced, PCAGENT and PCRUN; to the agent PCSREG, by
/// which that is to ask for a descriptor or to end, and PCRUN. Each goes to a handle that it has of that file.
pub fn apfiles_makes_its_own_calls()
    ensures { (controllers : List ControllerState) (n k pid : ℕ) (s : TracedState) (h : List Entry)
        → IsRunOf n k (cores.Probe (first_probe pid)) controllers s h → MakesProbeCalls k pid s h }
{}

/// In such a history, from a state in which it has nothing open, an apfiles has files of its own process alone open at
/// any time.
pub fn apfiles_opens_its_own_process_alone()
    ensures { (controllers : List ControllerState) (n k pid : ℕ) (s : TracedState) (h : List Entry) (p : ProbeState)
        → HasNothingOpen k s → IsRunOf n k (cores.Probe (first_probe pid)) controllers s h
        → slice_get (controllers_at controllers h) k ≡ Some (cores.Probe p)
        → HoldsOnly k pid (state_after s h) }
{}

/// In such a history an apfiles that has finished, whether it was refused or not, has nothing open any more.
pub fn apfiles_that_has_finished_has_nothing_open()
    ensures { (controllers : List ControllerState) (n k pid : ℕ) (s : TracedState) (h : List Entry) (p : ProbeState)
        → HasNothingOpen k s → IsRunOf n k (cores.Probe (first_probe pid)) controllers s h
        → slice_get (controllers_at controllers h) k ≡ Some (cores.Probe p)
        → has_ended p ≡ true → HasNothingOpen k (state_after s h) }
{}
