ghost use Rattle.std.specs.Prelude.{◌≡◌, ℕ, List, None, Some, slice_get, true};
ghost use Rattle.pr_model.specs.State.{TracedState};
ghost use Rattle.pr_model.specs.declared.events.Entry.{Entry};
ghost use Rattle.pr_probe.specs.Probes.{ProbeState, first_probe, has_ended};
ghost use Rattle.pr_probe_laws.specs.PutBack.{PutsBack};
ghost use Rattle.pr_world.specs.ControllerStates as cores;
ghost use Rattle.pr_world.specs.ControllerStates.{ControllerState};
ghost use Rattle.pr_world.specs.Protocol.{controllers_at};
ghost use Rattle.pr_tool_laws.specs.Runs.{IsRunOf};

/// In a legal history where these controllers make their own calls an apfiles that has finished, and was not refused,
/// has put back what it wrote over, whatever others do: the bytes of the text and those of the stack that stood there
/// when it read them, before it wrote there, stand there again right after it wrote them back.
pub fn apfiles_puts_back_what_it_wrote_over()
    ensures { (controllers : List ControllerState) (n k : ℕ) (pid : ℕ) (s : TracedState) (h : List Entry)
        (p : ProbeState)
        → IsRunOf n k (cores.Probe (first_probe pid)) controllers s h
        → slice_get (controllers_at controllers h) k ≡ Some (cores.Probe p) → has_ended p ≡ true → p.refusal ≡ None
        → PutsBack k pid s h }
{}
