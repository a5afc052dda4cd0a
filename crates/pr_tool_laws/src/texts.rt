ghost use Rattle.std.specs.Prelude.{◌≡◌, ℕ, List, None, Some, slice_get, true};
ghost use Rattle.pr_model.specs.State.{TracedState, TracedSystem};
ghost use Rattle.pr_model.specs.declared.events.Entry.{Entry};
ghost use Rattle.pr_model.specs.declared.tools.ToolKind.{ToolKind};
ghost use Rattle.pr_num.specs.Programs.{Program};
ghost use Rattle.pr_tool_laws.specs.OneState.{IsOfOneState, IsReadBack};
ghost use Rattle.pr_tool_laws.specs.Reads.{text_read};
ghost use Rattle.pr_tool_laws.specs.Runs.{IsRunOf};
ghost use Rattle.pr_tool_laws.specs.ToolTexts.{reads_once, tool_text};
ghost use Rattle.pr_tools.specs.Tools.{ToolState, first_tool, has_ended, printed};
ghost use Rattle.pr_world.specs.ControllerStates.{ControllerState};
ghost use Rattle.pr_world.specs.ControllerStates as cores;
ghost use Rattle.pr_world.specs.Protocol.{controllers_at};

/// In a legal history where these controllers make their own calls a tool other than pstack that has finished, and was
/// not refused, prints the text of one state: of the one that its read finds, and so of one between its first call and
/// its last.
pub fn a_tools_text_is_of_one_state()
    ensures { (controllers : List ControllerState) (n k : ℕ) (kind : ToolKind) (pid : ℕ) (first : TracedState)
        (h : List Entry) (t : ToolState) (programs : List Program)
        → reads_once kind ≡ true → IsRunOf n k (cores.Tool (first_tool kind pid)) controllers first h
        → slice_get (controllers_at controllers h) k ≡ Some (cores.Tool t) → has_ended t ≡ true → t.refusal ≡ None
        → IsOfOneState k kind pid first h (printed t programs) }
{}

/// What a tool makes of one read is the text of what stands in the state, where the fields of the record are in their
/// ranges and one read has it all.
pub fn what_is_read_back_is_what_stands_there()
    ensures { (kind : ToolKind) (pid : ℕ) (s : TracedSystem) → IsReadBack kind pid s
        → text_read kind pid s ≡ tool_text kind pid s }
{}
