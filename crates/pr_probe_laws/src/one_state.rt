ghost use Rattle.std.specs.Prelude.{◌≡◌, ℕ, List, None, Some, slice_get, true};
ghost use Rattle.pr_model.specs.FirstState.{first_state};
ghost use Rattle.pr_model.specs.State.{TracedState};
ghost use Rattle.pr_model.specs.declared.events.Entry.{Entry};
ghost use Rattle.pr_num.specs.Programs.{Program};
ghost use Rattle.pr_num.specs.declared.files.StoredFile.{StoredFile};
ghost use Rattle.pr_probe.specs.ProbeText.{printed};
ghost use Rattle.pr_probe.specs.Probes.{ProbeState, first_probe, has_ended};
ghost use Rattle.pr_probe_laws.specs.ShownDescriptors.{ShowsOneState};
ghost use Rattle.pr_reached.specs.ByteHistories.{HasBytes};
ghost use Rattle.pr_reached.specs.HistoriesInRange.{FirstStaysInRange};
ghost use Rattle.pr_reached.specs.Reached.{IsReached};
ghost use Rattle.pr_world.specs.ControllerStates as cores;
ghost use Rattle.pr_world.specs.ControllerStates.{ControllerState};
ghost use Rattle.pr_world.specs.Protocol.{controllers_at};
ghost use Rattle.pr_tool_laws.specs.Runs.{IsRunOf};

/// In a legal history where these controllers make their own calls, from a state that is reached or from a first state,
/// and in which controllers write bytes, an apfiles that has finished, and was not refused, prints the text of the
/// descriptors that are open in one state: the one that its PCSEXIT finds once its agent was asked for each descriptor.
/// This is so where no other controller has the process open for writing from its first call to there, and where the
/// process had lent its memory to nobody when its status was read, or there was room for the agent all the same.
pub fn apfiles_shows_one_state()
    ensures later { (controllers : List ControllerState) (n k : ℕ) (pid : ℕ) (s : TracedState) (h : List Entry)
        (p : ProbeState)
        → IsReached s → HasBytes h → IsRunOf n k (cores.Probe (first_probe pid)) controllers s h
        → slice_get (controllers_at controllers h) k ≡ Some (cores.Probe p) → has_ended p ≡ true → p.refusal ≡ None
        → ShowsOneState k pid s h (printed p) }
    ensures first { (programs : List Program) (files : List StoredFile) (spawns : List ℕ)
        (controllers : List ControllerState) (n k : ℕ) (pid : ℕ) (h : List Entry) (p : ProbeState)
        → FirstStaysInRange programs files spawns h
        → IsRunOf n k (cores.Probe (first_probe pid)) controllers (first_state programs files spawns) h
        → slice_get (controllers_at controllers h) k ≡ Some (cores.Probe p) → has_ended p ≡ true → p.refusal ≡ None
        → ShowsOneState k pid (first_state programs files spawns) h (printed p) }
{}
