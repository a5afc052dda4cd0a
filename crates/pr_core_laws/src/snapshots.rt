ghost use Rattle.std.specs.Prelude.{◌≡◌, ℕ, List, None, Some, slice_get, true};
ghost use Rattle.pr_core.specs.CoreText.{printed};
ghost use Rattle.pr_core.specs.Gcores.{GcoreState, first_gcore, has_ended};
ghost use Rattle.pr_core_laws.specs.OneCore.{ShowsOneCore};
ghost use Rattle.pr_model.specs.FirstState.{first_state};
ghost use Rattle.pr_model.specs.State.{TracedState};
ghost use Rattle.pr_model.specs.declared.events.Entry.{Entry};
ghost use Rattle.pr_num.specs.Programs.{Program};
ghost use Rattle.pr_num.specs.declared.files.StoredFile.{StoredFile};
ghost use Rattle.pr_world.specs.ControllerStates.{ControllerState};
ghost use Rattle.pr_world.specs.ControllerStates as cores;
ghost use Rattle.pr_world.specs.Protocol.{controllers_at};
ghost use Rattle.pr_reached.specs.HistoriesInRange.{FirstStaysInRange, StaysInRange};
ghost use Rattle.pr_tool_laws.specs.Runs.{IsRunOf};

/// In a legal history where these controllers make their own calls, from a lawful state in range or from a first state,
/// and in which controllers write bytes, a gcore that has finished, and was not refused, prints the core of one state,
/// although it reads file by file and piece by piece: of the one that it finds when it reads the descriptors. This is
/// so where the process has no agent, and others spare it from gcore's read of its status on: its parent does not end,
/// and no SIGCONT or stop signal is sent to it.
pub fn gcore_shows_one_state()
    ensures later { (controllers : List ControllerState) (n k : ℕ) (pid : ℕ) (s : TracedState) (h : List Entry)
        (g : GcoreState)
        → StaysInRange s h → IsRunOf n k (cores.Gcore (first_gcore pid)) controllers s h
        → slice_get (controllers_at controllers h) k ≡ Some (cores.Gcore g) → has_ended g ≡ true → g.refusal ≡ None
        → ShowsOneCore k pid s h (printed g) }
    ensures first { (programs : List Program) (files : List StoredFile) (spawns : List ℕ)
        (controllers : List ControllerState) (n k : ℕ) (pid : ℕ) (h : List Entry) (g : GcoreState)
        → FirstStaysInRange programs files spawns h
        → IsRunOf n k (cores.Gcore (first_gcore pid)) controllers (first_state programs files spawns) h
        → slice_get (controllers_at controllers h) k ≡ Some (cores.Gcore g) → has_ended g ≡ true → g.refusal ≡ None
        → ShowsOneCore k pid (first_state programs files spawns) h (printed g) }
{}
