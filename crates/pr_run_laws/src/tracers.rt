ghost use Rattle.std.specs.Prelude.{◌≡◌, ℕ, IfSome, List, Some, true};
ghost use Rattle.std.specs.List.{All};
ghost use Rattle.pr_core.specs.Gcores as gcores;
ghost use Rattle.pr_core.specs.Gcores.{GcoreState};
ghost use Rattle.pr_model.specs.Calls.{Answer, answer_to};
ghost use Rattle.pr_model.specs.Legal.{IsLegal};
ghost use Rattle.pr_model.specs.Passive.{IsPassive, is_passive_call};
ghost use Rattle.pr_model.specs.State.{TracedState};
ghost use Rattle.pr_model.specs.declared.calls.Call.{Call};
ghost use Rattle.pr_model.specs.declared.events.Entry.{Entry};
ghost use Rattle.pr_run_laws.specs.Tracers.{IsTracer};
ghost use Rattle.pr_tool_laws.specs.PassiveCalls.{IsPassiveCall};
ghost use Rattle.pr_tools.specs.Tools as tools;
ghost use Rattle.pr_tools.specs.Tools.{ToolState};
ghost use Rattle.pr_truss.specs.NextCalls as trusses;
ghost use Rattle.pr_truss.specs.Trusses.{TrussState};
ghost use Rattle.pr_world.specs.ControllerStates.{ControllerState};
ghost use Rattle.pr_world.specs.Protocol.{Follows};

/// Whatever truss has learnt, the control message that it sends next, if it sends one, is passive: PCSTOP, PCRUN
/// without flags, those that set what is traced, PCUNSET, and PCSET of the modes to follow forks and to run on the last
/// close.
pub fn truss_sends_passive_messages()
    ensures { (t : TrussState) → IfSome (trusses.next_call_of t) IsPassiveCall }
{}

/// Whatever a tool has learnt, the control message that it sends next, if it sends one, is passive: PCSTOP, PCDSTOP or
/// PCRUN without flags.
pub fn tools_send_passive_messages()
    ensures { (t : ToolState) → IfSome (tools.next_call_of t) IsPassiveCall }
{}

/// Whatever gcore has learnt, the control message that it sends next, if it sends one, is passive: PCSTOP, PCWSTOP or
/// PCRUN without flags.
pub fn gcore_sends_passive_messages()
    ensures { (g : GcoreState) → IfSome (gcores.next_call_of g) IsPassiveCall }
{}

/// A call that sends a passive message, or none, is passive as the machine answers it. A set of signals, faults or
/// calls that lies outside its column is refused.
pub fn calls_that_send_passive_messages_are_passive()
    ensures { (s : TracedState) (by : ℕ) (c : Call) (a : Answer) → answer_to s by c ≡ Some a → IsPassiveCall c
        → is_passive_call c a.reply ≡ true }
{}

/// A legal history is passive in which no controller is a script, asks by an agent or shows calls of functions, and
/// each makes the calls that come next after its replies.
pub fn histories_of_tracers_are_passive()
    ensures { (controllers : List ControllerState) (n : ℕ) (s : TracedState) (h : List Entry) → All IsTracer controllers
        → IsLegal n s h → Follows controllers s h → IsPassive h }
{}
