ghost use Rattle.std.specs.Prelude.{◌≡◌, ◌∷◌, ◌++◌, ℕ, List, Some, false, slice_get, true};
ghost use Rattle.pr_api.specs.Entries.{call_entry};
ghost use Rattle.pr_erasure.specs.Untouched.{IsUntouched};
ghost use Rattle.pr_hidden.specs.HiddenSteps.{IsHidden};
ghost use Rattle.pr_hidden.specs.Hiders.{Hiders};
ghost use Rattle.pr_hidden.specs.Tidiness.{IsSparing, IsTidy};
ghost use Rattle.pr_lawful.specs.Starts.{IsStart};
ghost use Rattle.pr_model.specs.FirstState.{first_state};
ghost use Rattle.pr_model.specs.Legal.{state_after};
ghost use Rattle.pr_model.specs.State.{TracedProcess, TracedState, has_agent, live_process};
ghost use Rattle.pr_model.specs.declared.calls.Call.{Call};
ghost use Rattle.pr_model.specs.declared.calls.Reply.{Reply};
ghost use Rattle.pr_model.specs.declared.calls.Reply.TheVariants as reply;
ghost use Rattle.pr_model.specs.declared.events.Entry.{Entry};
ghost use Rattle.pr_num.specs.Layout.{stack_base};
ghost use Rattle.pr_num.specs.Programs.{Program};
ghost use Rattle.pr_num.specs.declared.errnos.Errno.{Errno};
ghost use Rattle.pr_num.specs.declared.files.StoredFile.{StoredFile};
ghost use Rattle.pr_num.specs.declared.messages.Message.TheVariants as message;
ghost use Rattle.pr_probe.specs.AgentCode.{stack_size};
ghost use Rattle.pr_probe.specs.Probes.{ProbeState, first_probe};
ghost use Rattle.pr_probe_laws.specs.HiddenProbes.{IsHidingAfter, IsRunOfProbes};
ghost use Rattle.pr_tool_laws.specs.Leaving.{SendsTo};
ghost use Rattle.pr_probe_laws.specs.Reasons.{IsInterruptedPoll};
ghost use Rattle.pr_probe_laws.specs.StepMarks.{IsUnstepped};
ghost use Rattle.pr_reached.specs.InRange.{IsStartInRange};
ghost use Rattle.pr_reached.specs.Reached.{IsReached};
ghost use Rattle.pr_world.specs.ControllerStates.{ControllerState, Probe};

/// In a legal history where these controllers make their own calls, from a state that is reached or from a first one,
/// and in which controllers write bytes, each apfiles is tidy, and programs leave alone what it wrote over. So programs
/// see nothing of it: the steps that are not hidden are a run of the machine without controllers. This is so where
/// those who hide are each an apfiles, every other call is passive, and each apfiles is left alone while it hides
/// something. Of a later state than a first one it is asked that no lwp has a step mark.
pub fn apfiles_is_hidden()
    ensures tidy { (n : ℕ) (who : Hiders) (controllers : List ControllerState) (s : TracedState) (h : List Entry)
        → IsReached s → IsUnstepped s.system → IsRunOfProbes n who controllers s h → IsTidy who s h }
    ensures spares { (n : ℕ) (who : Hiders) (controllers : List ControllerState) (s : TracedState) (h : List Entry)
        → IsReached s → IsUnstepped s.system → IsRunOfProbes n who controllers s h → IsSparing who s h }
    ensures later { (n : ℕ) (who : Hiders) (controllers : List ControllerState) (s : TracedState) (h : List Entry)
        → IsReached s → IsUntouched s.system → IsRunOfProbes n who controllers s h → IsHidden who s h }
    ensures first { (programs : List Program) (files : List StoredFile) (spawns : List ℕ) (n : ℕ) (who : Hiders)
        (controllers : List ControllerState) (h : List Entry)
        → IsStart programs files spawns → IsStartInRange programs files
        → IsRunOfProbes n who controllers (first_state programs files spawns) h
        → IsHidden who (first_state programs files spawns) h }
{}

/// In such a history an apfiles that is left alone is refused nothing while it hides something, from PCAGENT until all
/// is written back; but a wait for its agent may be interrupted, and is made again.
pub fn apfiles_is_refused_nothing_while_it_hides_something()
    ensures { (n : ℕ) (who : Hiders) (controllers : List ControllerState) (s : TracedState) (h : List Entry)
        → IsReached s → IsUnstepped s.system → IsRunOfProbes n who controllers s h → (k pid : ℕ) → who.probes k ≡ true
        → slice_get controllers k ≡ Some (Probe (first_probe pid)) → (front back : List Entry) (c : Call) (e : Errno)
        → (p : ProbeState) → h ≡ front ++ call_entry k c (reply.Fail e) ∷ back
        → IsHidingAfter k pid controllers s front p → IsInterruptedPoll c e }
{}

/// In such a history the agent of an apfiles that is left alone has ended before the bytes are written back at which it
/// was answered.
pub fn apfiles_waits_until_its_agent_has_ended()
    ensures { (n : ℕ) (who : Hiders) (controllers : List ControllerState) (s : TracedState) (h : List Entry)
        → IsReached s → IsUnstepped s.system → IsRunOfProbes n who controllers s h → (k pid : ℕ) → who.probes k ≡ true
        → slice_get controllers k ≡ Some (Probe (first_probe pid)) → (front back : List Entry) (c : Call) (r : Reply)
        → (tail : List ℕ) → h ≡ front ++ call_entry k c r ∷ back
        → SendsTo k pid (message.Write stack_base stack_size) tail (state_after s front) c → (q : TracedProcess)
        → live_process (state_after s front).system pid ≡ Some q → has_agent q ≡ false }
{}
