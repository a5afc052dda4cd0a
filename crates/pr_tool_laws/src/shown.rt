ghost use Rattle.std.specs.Prelude.{◌≡◌, ℕ, List, None, Some, slice_get, true};
ghost use Rattle.pr_num.specs.Programs.{Program};
ghost use Rattle.pr_num.specs.declared.files.StoredFile.{StoredFile};
ghost use Rattle.pr_model.specs.FirstState.{first_state};
ghost use Rattle.pr_model.specs.Lawful.{IsLawfulSystem};
ghost use Rattle.pr_model.specs.State.{TracedState, TracedSystem};
ghost use Rattle.pr_model.specs.declared.events.Entry.{Entry};
ghost use Rattle.pr_model.specs.declared.tools.ToolKind.{ToolKind};
ghost use Rattle.pr_reached.specs.InRange.{IsInRange};
ghost use Rattle.pr_tool_laws.specs.OneState.{IsReadBack};
ghost use Rattle.pr_tool_laws.specs.ShownStates.{ShowsOneState};
ghost use Rattle.pr_tool_laws.specs.ToolTexts.{reads_once};
ghost use Rattle.pr_tools.specs.Tools.{ToolState, first_tool, has_ended, printed};
ghost use Rattle.pr_world.specs.ControllerStates.{ControllerState};
ghost use Rattle.pr_world.specs.ControllerStates as cores;
ghost use Rattle.pr_world.specs.Protocol.{controllers_at};
ghost use Rattle.pr_reached.specs.HistoriesInRange.{FirstStaysInRange, StaysInRange};
ghost use Rattle.pr_tool_laws.specs.Runs.{IsRunOf};

/// In a lawful system in range what a tool other than pstack reads has its fields in their ranges, and one read has all
/// of it.
pub fn one_read_has_what_stands_there()
    ensures { (kind : ToolKind) (pid : ℕ) (s : TracedSystem) → reads_once kind ≡ true → IsLawfulSystem s → IsInRange s
        → IsReadBack kind pid s }
{}

/// In a legal history where these controllers make their own calls, from a lawful state in range or from a first state,
/// and in which controllers write bytes, a tool other than pstack that has finished, and was not refused, prints what
/// stands in one state: in the one that its read finds. In the state of which pwait prints the wait status the process
/// has ended, and was not reaped yet.
pub fn tools_show_what_stands_there()
    ensures later { (controllers : List ControllerState) (n k : ℕ) (kind : ToolKind) (pid : ℕ) (s : TracedState)
        (h : List Entry) (t : ToolState) (programs : List Program) → StaysInRange s h
        → reads_once kind ≡ true → IsRunOf n k (cores.Tool (first_tool kind pid)) controllers s h
        → slice_get (controllers_at controllers h) k ≡ Some (cores.Tool t) → has_ended t ≡ true → t.refusal ≡ None
        → ShowsOneState k kind pid s h (printed t programs) }
    ensures first { (programs : List Program) (files : List StoredFile) (spawns : List ℕ)
        (controllers : List ControllerState) (n k : ℕ) (kind : ToolKind) (pid : ℕ) (h : List Entry) (t : ToolState)
        (labels : List Program) → FirstStaysInRange programs files spawns h
        → reads_once kind ≡ true
        → IsRunOf n k (cores.Tool (first_tool kind pid)) controllers (first_state programs files spawns) h
        → slice_get (controllers_at controllers h) k ≡ Some (cores.Tool t) → has_ended t ≡ true → t.refusal ≡ None
        → ShowsOneState k kind pid (first_state programs files spawns) h (printed t labels) }
{}
