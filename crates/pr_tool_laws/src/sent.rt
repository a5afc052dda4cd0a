ghost use Rattle.std.specs.Prelude.{◌≡◌, ℕ, List, None, Some, slice_get, true};
ghost use Rattle.pr_model.specs.Lawful.{IsLawful};
ghost use Rattle.pr_model.specs.State.{TracedState};
ghost use Rattle.pr_model.specs.declared.events.Entry.{Entry};
ghost use Rattle.pr_model.specs.declared.tools.ToolKind.TheVariants.{Prun, Pstop};
ghost use Rattle.pr_tool_laws.specs.SentMessages.{RunsItsProcess, StopsItsProcess};
ghost use Rattle.pr_tools.specs.Tools.{ToolState, first_tool, has_ended};
ghost use Rattle.pr_world.specs.ControllerStates.{ControllerState};
ghost use Rattle.pr_world.specs.ControllerStates as cores;
ghost use Rattle.pr_world.specs.Protocol.{controllers_at};
ghost use Rattle.pr_tool_laws.specs.Runs.{IsRunOf};

/// In a legal history where these controllers make their own calls, from a lawful state, a pstop that has finished, and
/// was not refused, has made just three calls: it has opened the control file of its process, sent PCDSTOP and closed
/// the file. Right after the message each lwp of the process stood on an event of interest or was directed to stop. The
/// close changed nothing of the system, unless the process lived and had PR_KLC or PR_RLC.
pub fn pstop_directs_its_process_to_stop()
    ensures { (controllers : List ControllerState) (n k pid : ℕ) (s : TracedState) (h : List Entry) (t : ToolState)
        → IsLawful s → IsRunOf n k (cores.Tool (first_tool Pstop pid)) controllers s h
        → slice_get (controllers_at controllers h) k ≡ Some (cores.Tool t) → has_ended t ≡ true → t.refusal ≡ None
        → StopsItsProcess k pid s h }
{}

/// The same of prun and PCRUN. Right after the message no lwp of the process was directed to stop; and where its
/// representative lwp had stood on an event of interest, and each other one had shown a requested stop or was
/// suspended, none stood on an event any more.
pub fn prun_runs_its_process()
    ensures { (controllers : List ControllerState) (n k pid : ℕ) (s : TracedState) (h : List Entry) (t : ToolState)
        → IsLawful s → IsRunOf n k (cores.Tool (first_tool Prun pid)) controllers s h
        → slice_get (controllers_at controllers h) k ≡ Some (cores.Tool t) → has_ended t ≡ true → t.refusal ≡ None
        → RunsItsProcess k pid s h }
{}
