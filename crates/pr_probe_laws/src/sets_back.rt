ghost use Rattle.std.specs.Prelude.{◌≡◌, ℕ, List, None, Some, slice_get, true};
ghost use Rattle.pr_model.specs.FirstState.{first_state};
ghost use Rattle.pr_model.specs.State.{TracedState};
ghost use Rattle.pr_model.specs.declared.events.Entry.{Entry};
ghost use Rattle.pr_num.specs.Programs.{Program};
ghost use Rattle.pr_num.specs.declared.files.StoredFile.{StoredFile};
ghost use Rattle.pr_probe.specs.Probes.{ProbeState, first_probe, has_ended};
ghost use Rattle.pr_probe_laws.specs.SetsBack.{SetsBack};
ghost use Rattle.pr_world.specs.ControllerStates as cores;
ghost use Rattle.pr_world.specs.ControllerStates.{ControllerState};
ghost use Rattle.pr_world.specs.Protocol.{controllers_at};
ghost use Rattle.pr_reached.specs.HistoriesInRange.{FirstStaysInRange, StaysInRange};
ghost use Rattle.pr_tool_laws.specs.Runs.{IsRunOf};

/// In a legal history where these controllers make their own calls, from a lawful state in range or from a first state,
/// and in which controllers write bytes, an apfiles that has finished, and was not refused, has set the four traced
/// sets back. Where no other controller has the process open for writing from its first call on, and the process lives
/// when it begins to close its files, that is traced then by the sets by which it was traced before apfiles came.
pub fn apfiles_sets_the_traced_sets_back()
    ensures later { (controllers : List ControllerState) (n k : ℕ) (pid : ℕ) (s : TracedState) (h : List Entry)
        (p : ProbeState)
        → StaysInRange s h → IsRunOf n k (cores.Probe (first_probe pid)) controllers s h
        → slice_get (controllers_at controllers h) k ≡ Some (cores.Probe p) → has_ended p ≡ true → p.refusal ≡ None
        → SetsBack k pid s h }
    ensures first { (programs : List Program) (files : List StoredFile) (spawns : List ℕ)
        (controllers : List ControllerState) (n k : ℕ) (pid : ℕ) (h : List Entry) (p : ProbeState)
        → FirstStaysInRange programs files spawns h
        → IsRunOf n k (cores.Probe (first_probe pid)) controllers (first_state programs files spawns) h
        → slice_get (controllers_at controllers h) k ≡ Some (cores.Probe p) → has_ended p ≡ true → p.refusal ≡ None
        → SetsBack k pid (first_state programs files spawns) h }
{}
