ghost use Rattle.std.specs.Prelude.{◌≡◌, ℕ, List, None, Some, slice_get, true};
ghost use Rattle.pr_model.specs.FirstState.{first_state};
ghost use Rattle.pr_model.specs.Lawful.{IsLawful};
ghost use Rattle.pr_model.specs.State.{TracedState};
ghost use Rattle.pr_model.specs.declared.events.Entry.{Entry};
ghost use Rattle.pr_num.specs.Programs.{Program};
ghost use Rattle.pr_num.specs.declared.errnos.Errno.{Errno};
ghost use Rattle.pr_num.specs.declared.files.StoredFile.{StoredFile};
ghost use Rattle.pr_probe.specs.ProbeText.{printed};
ghost use Rattle.pr_probe.specs.Probes.{ProbeState, first_probe, has_ended};
ghost use Rattle.pr_probe_laws.specs.Reasons.{TellsWhy};
ghost use Rattle.pr_probe_laws.specs.TakesBack.{TakesBack};
ghost use Rattle.pr_world.specs.ControllerStates as cores;
ghost use Rattle.pr_world.specs.ControllerStates.{ControllerState};
ghost use Rattle.pr_reached.specs.HistoriesInRange.{FirstStaysInRange, StaysInRange};
ghost use Rattle.pr_tool_laws.specs.Leaving.{LeavesItsProcess};
ghost use Rattle.pr_tool_laws.specs.Runs.{IsRunOf};
ghost use Rattle.pr_world.specs.Protocol.{controllers_at};

/// In a legal history where these controllers make their own calls, from a lawful state in range or from a first
/// state, and in which controllers write bytes, an apfiles that has finished, and was not refused, has run its process
/// again by PCRUN, and done nothing but close since then, unless every lwp of it stood when apfiles came; then it has
/// sent that no PCRUN.
pub fn apfiles_runs_its_process_again()
    ensures later { (controllers : List ControllerState) (n k pid : ℕ) (s : TracedState) (h : List Entry)
        (p : ProbeState)
        → StaysInRange s h → IsRunOf n k (cores.Probe (first_probe pid)) controllers s h
        → slice_get (controllers_at controllers h) k ≡ Some (cores.Probe p) → has_ended p ≡ true → p.refusal ≡ None
        → LeavesItsProcess k pid s h }
    ensures first { (programs : List Program) (files : List StoredFile) (spawns : List ℕ)
        (controllers : List ControllerState) (n k pid : ℕ) (h : List Entry) (p : ProbeState)
        → FirstStaysInRange programs files spawns h
        → IsRunOf n k (cores.Probe (first_probe pid)) controllers (first_state programs files spawns) h
        → slice_get (controllers_at controllers h) k ≡ Some (cores.Probe p) → has_ended p ≡ true → p.refusal ≡ None
        → LeavesItsProcess k pid (first_state programs files spawns) h }
{}

/// In such a history an apfiles that has finished and made no agent, since it was refused before, has taken back its
/// request to stop by PCRUN, or had made none, unless every lwp of its process stood when it came.
pub fn apfiles_takes_back_its_request()
    ensures later { (controllers : List ControllerState) (n k pid : ℕ) (s : TracedState) (h : List Entry)
        (p : ProbeState)
        → StaysInRange s h → IsRunOf n k (cores.Probe (first_probe pid)) controllers s h
        → slice_get (controllers_at controllers h) k ≡ Some (cores.Probe p) → has_ended p ≡ true
        → TakesBack k pid s h }
    ensures first { (programs : List Program) (files : List StoredFile) (spawns : List ℕ)
        (controllers : List ControllerState) (n k pid : ℕ) (h : List Entry) (p : ProbeState)
        → FirstStaysInRange programs files spawns h
        → IsRunOf n k (cores.Probe (first_probe pid)) controllers (first_state programs files spawns) h
        → slice_get (controllers_at controllers h) k ≡ Some (cores.Probe p) → has_ended p ≡ true
        → TakesBack k pid (first_state programs files spawns) h }
{}

/// In such a history an apfiles that has finished and was refused prints the line of a refusal. Its errno has its
/// reason in the reply to a call of its own: that refused a call for the process, or gave the status with a watched
/// area, or mappings without room for an agent. Before it no call of apfiles was refused, but that waits for its agent
/// may have been interrupted.
pub fn apfiles_tells_why_it_was_refused()
    ensures { (controllers : List ControllerState) (n k pid : ℕ) (s : TracedState) (h : List Entry) (p : ProbeState)
        (e : Errno)
        → IsLawful s → IsRunOf n k (cores.Probe (first_probe pid)) controllers s h
        → slice_get (controllers_at controllers h) k ≡ Some (cores.Probe p) → has_ended p ≡ true
        → p.refusal ≡ Some e → TellsWhy k pid e s h (printed p) }
{}
