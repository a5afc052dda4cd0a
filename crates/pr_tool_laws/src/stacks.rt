ghost use Rattle.std.specs.Prelude.{◌≡◌, ℕ, IsSome, List, None, Some, false, slice_get, true};
ghost use Rattle.pr_model.specs.FirstState.{first_state};
ghost use Rattle.pr_model.specs.State.{TracedState};
ghost use Rattle.pr_model.specs.declared.events.Entry.{Entry};
ghost use Rattle.pr_model.specs.declared.tools.ToolKind.TheVariants.{Pstack};
ghost use Rattle.pr_num.specs.Programs.{Program};
ghost use Rattle.pr_num.specs.declared.files.StoredFile.{StoredFile};
ghost use Rattle.pr_tool_laws.specs.Leaving.{LeavesItsProcess};
ghost use Rattle.pr_tool_laws.specs.Requests.{asks_still};
ghost use Rattle.pr_tool_laws.specs.Stacks.{ShowsOneStack};
ghost use Rattle.pr_tools.specs.Tools.{ToolState, first_tool, has_ended, printed};
ghost use Rattle.pr_truss_laws.specs.Exchanges.{exchanges};
ghost use Rattle.pr_world.specs.ControllerStates.{ControllerState};
ghost use Rattle.pr_world.specs.ControllerStates as cores;
ghost use Rattle.pr_world.specs.Protocol.{controllers_at};
ghost use Rattle.pr_reached.specs.HistoriesInRange.{FirstStaysInRange, StaysInRange};
ghost use Rattle.pr_tool_laws.specs.Runs.{IsRunOf};

/// In a legal history where these controllers make their own calls, from a lawful state in range or from a first state,
/// and in which controllers write bytes, a pstack that has finished, and was not refused, prints the stacks of one
/// state, although it reads frame by frame: of the one that it finds when it reads the status of all lwps, after it has
/// waited for the process to stop. This is so whatever programs it takes its labels from. Of the stacks of a process
/// that has lent its memory in that state nothing is said (vfork(2)).
pub fn pstack_shows_one_state()
    ensures later { (controllers : List ControllerState) (n k : ℕ) (pid : ℕ) (s : TracedState) (h : List Entry)
        (t : ToolState) (programs : List Program)
        → StaysInRange s h → IsRunOf n k (cores.Tool (first_tool Pstack pid)) controllers s h
        → slice_get (controllers_at controllers h) k ≡ Some (cores.Tool t) → has_ended t ≡ true → t.refusal ≡ None
        → ShowsOneStack k pid programs s h (printed t programs) }
    ensures first { (programs : List Program) (files : List StoredFile) (spawns : List ℕ)
        (controllers : List ControllerState) (n k : ℕ) (pid : ℕ) (h : List Entry) (t : ToolState)
        (labels : List Program) → FirstStaysInRange programs files spawns h
        → IsRunOf n k (cores.Tool (first_tool Pstack pid)) controllers (first_state programs files spawns) h
        → slice_get (controllers_at controllers h) k ≡ Some (cores.Tool t) → has_ended t ≡ true → t.refusal ≡ None
        → ShowsOneStack k pid labels (first_state programs files spawns) h (printed t labels) }
{}

/// In a legal history where these controllers make their own calls, from a lawful state in range or from a first state,
/// and in which controllers write bytes, a pstack that has finished, and was not refused, has run its process again by
/// PCRUN, and done nothing but close since then, unless every lwp of it stood when pstack came; then it has sent that
/// no PCRUN.
pub fn pstack_runs_its_process_again()
    ensures later { (controllers : List ControllerState) (n k pid : ℕ) (s : TracedState) (h : List Entry)
        (t : ToolState) → StaysInRange s h → IsRunOf n k (cores.Tool (first_tool Pstack pid)) controllers s h
        → slice_get (controllers_at controllers h) k ≡ Some (cores.Tool t) → has_ended t ≡ true → t.refusal ≡ None
        → LeavesItsProcess k pid s h }
    ensures first { (programs : List Program) (files : List StoredFile) (spawns : List ℕ)
        (controllers : List ControllerState) (n k pid : ℕ) (h : List Entry) (t : ToolState)
        → FirstStaysInRange programs files spawns h
        → IsRunOf n k (cores.Tool (first_tool Pstack pid)) controllers (first_state programs files spawns) h
        → slice_get (controllers_at controllers h) k ≡ Some (cores.Tool t) → has_ended t ≡ true → t.refusal ≡ None
        → LeavesItsProcess k pid (first_state programs files spawns) h }
{}

/// In a legal history where these controllers make their own calls, a pstack that has finished and was refused has no
/// request to stop left that was not refused: after PCSTOP it has sent PCRUN.
pub fn a_refused_pstack_takes_back_its_request()
    ensures { (controllers : List ControllerState) (n k pid : ℕ) (s : TracedState) (h : List Entry) (t : ToolState)
        → IsRunOf n k (cores.Tool (first_tool Pstack pid)) controllers s h
        → slice_get (controllers_at controllers h) k ≡ Some (cores.Tool t) → has_ended t ≡ true → IsSome t.refusal
        → asks_still false (exchanges k h) ≡ false }
{}
