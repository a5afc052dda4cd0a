ghost use Rattle.std.specs.Prelude.{◌≡◌, ℕ, List, None, Some, slice_get, true};
ghost use Rattle.pr_model.specs.State.{TracedState};
ghost use Rattle.pr_model.specs.declared.events.Entry.{Entry};
ghost use Rattle.pr_model.specs.declared.tools.ToolKind.{ToolKind};
ghost use Rattle.pr_num.specs.Programs.{Program};
ghost use Rattle.pr_num.specs.declared.errnos.Errno.{Errno};
ghost use Rattle.pr_tool_laws.specs.ReadOnce.{ReadsOnce};
ghost use Rattle.pr_tool_laws.specs.Runs.{IsRunOf};
ghost use Rattle.pr_tool_laws.specs.ToolCalls.{MakesToolCalls};
ghost use Rattle.pr_tool_laws.specs.ToolHandles.{only_reads};
ghost use Rattle.pr_tool_laws.specs.ToolRefusals.{TellsWhy};
ghost use Rattle.pr_tools.specs.Tools.{ToolState, first_tool, has_ended, printed};
ghost use Rattle.pr_world.specs.ControllerStates.{ControllerState};
ghost use Rattle.pr_world.specs.ControllerStates as cores;
ghost use Rattle.pr_world.specs.Protocol.{controllers_at};

/// In a legal history where these controllers make their own calls each call of a tool, refused or not, is one of its
/// table, in the state that the call finds, or a close: it opens a file of its process, or goes to one that it has
/// open.
pub fn tools_make_their_own_calls()
    ensures { (controllers : List ControllerState) (n k : ℕ) (kind : ToolKind) (pid : ℕ) (s : TracedState)
        (h : List Entry) → IsRunOf n k (cores.Tool (first_tool kind pid)) controllers s h
        → MakesToolCalls kind k pid s h }
{}

/// In such a history a tool that has finished and was refused prints the line of a refusal. Its errno is that of a call
/// of its own, which was refused with it. Before that none was refused, but reads of pstack where no memory is mapped;
/// and since then the tool has made no calls but closes, and pstack PCRUN.
pub fn a_refused_tool_tells_why()
    ensures { (controllers : List ControllerState) (n k : ℕ) (kind : ToolKind) (pid : ℕ) (s : TracedState)
        (h : List Entry) (t : ToolState) (e : Errno) (programs : List Program)
        → IsRunOf n k (cores.Tool (first_tool kind pid)) controllers s h
        → slice_get (controllers_at controllers h) k ≡ Some (cores.Tool t) → has_ended t ≡ true
        → t.refusal ≡ Some e → TellsWhy kind k pid e s h (printed t programs) }
{}

/// In such a history pflags, psig, pmap, pfiles, pwait and ptree, when they have finished and were not refused, have
/// read once: pwait has made four calls, ptree one, and the others three, and none was refused.
pub fn a_tool_reads_once()
    ensures { (controllers : List ControllerState) (n k : ℕ) (kind : ToolKind) (pid : ℕ) (s : TracedState)
        (h : List Entry) (t : ToolState) → only_reads kind ≡ true
        → IsRunOf n k (cores.Tool (first_tool kind pid)) controllers s h
        → slice_get (controllers_at controllers h) k ≡ Some (cores.Tool t) → has_ended t ≡ true → t.refusal ≡ None
        → ReadsOnce kind k pid h }
{}
