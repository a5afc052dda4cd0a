ghost use Rattle.std.specs.Prelude.{◌≡◌, ◌≢◌, ℕ, None, Some, false, true};
ghost use Rattle.pr_model.specs.Lawful.{IsLawful, IsLawfulSystem};
ghost use Rattle.pr_model.specs.Calls.{Answer, answer_to};
ghost use Rattle.pr_model.specs.Handles.{handle_of};
ghost use Rattle.pr_model.specs.LwpTurns.{LwpTurn, can_move, turn_of};
ghost use Rattle.pr_model.specs.State.{TracedLwp, TracedProcess, TracedState, TracedSystem, has_agent, live_process, lwp_of};
ghost use Rattle.pr_num.specs.Control.{async_mode, has_flags};
ghost use Rattle.pr_model.specs.declared.calls.Call as calls;
ghost use Rattle.pr_model.specs.declared.calls.Mode.TheVariants.{WriteExcl};
ghost use Rattle.pr_model.specs.declared.handles.Held.{Held};
ghost use Rattle.pr_line.specs.Events.{event_of};
ghost use Rattle.pr_num.specs.ById.{IsRising};
ghost use Rattle.pr_model.specs.Running.{run_refused, with_run};
ghost use Rattle.pr_model.specs.Statuses.{lwpstatus_of};
ghost use Rattle.pr_model.specs.declared.stops.Stop.{Stop};
ghost use Rattle.pr_model.specs.declared.events.Did.TheVariants.{Stopped};
ghost use Rattle.pr_truss_laws.specs.Stills.{HasOneEvent, HasSameSettings, IsFrozen, IsHalting, IsQuiet, IsUndisturbed, StandsOnEvent, with_lwp_stopped};

/// No lwp has a turn in a process each lwp of which stands on an event of interest or is suspended.
#[tactic(auto, using(crate::proofs::Machine::StillLemmas::stills))]
pub fn a_frozen_process_stands_still()
    ensures moves { (s : TracedSystem) (pid : ℕ) (p : TracedProcess) → live_process s pid ≡ Some p → IsFrozen p
        → (id : ℕ) → can_move s pid id ≡ false }
    ensures turns { (s : TracedSystem) (pid : ℕ) (p : TracedProcess) → live_process s pid ≡ Some p → IsFrozen p
        → (id : ℕ) → turn_of s pid id ≡ None }
{}

/// Where each lwp of a process stands so or is directed to stop, a turn of one does nothing but that it stops as it was
/// directed to, and so it stays.
#[tactic(auto, using(crate::proofs::Machine::StillLemmas::stills))]
pub fn a_halting_process_only_stops()
    ensures did { (s : TracedSystem) (pid : ℕ) (p : TracedProcess) → live_process s pid ≡ Some p → IsHalting p
        → (id : ℕ) (t : LwpTurn) → turn_of s pid id ≡ Some t → t.turned ≡ record { did = Stopped; stop = false } }
    ensures leaves { (s : TracedSystem) (pid : ℕ) (p : TracedProcess) → live_process s pid ≡ Some p → IsHalting p
        → (id : ℕ) (t : LwpTurn) → turn_of s pid id ≡ Some t
        → live_process t.system pid ≡ Some (with_lwp_stopped id p) }
    ensures stays { (s : TracedSystem) (pid : ℕ) (p : TracedProcess) → live_process s pid ≡ Some p → IsHalting p
        → (id : ℕ) (t : LwpTurn) → turn_of s pid id ≡ Some t → IsHalting (with_lwp_stopped id p) }
{}

/// What an lwp of another process does leaves a process alone, where it lives still, but for signals and an end of its
/// parent.
pub fn a_turn_leaves_other_processes_alone()
    ensures { (s : TracedSystem) (pid other id : ℕ) (t : LwpTurn) (p q : TracedProcess) → IsLawfulSystem s
        → live_process s pid ≡ Some p → other ≢ pid → turn_of s other id ≡ Some t → live_process t.system pid ≡ Some q
        → IsUndisturbed p q }
{}

/// So does what another controller calls, where one controller has the process open exclusively.
pub fn other_controllers_leave_an_exclusive_process_alone()
    ensures { (s : TracedState) (k number by : ℕ) (h : Held) (c : calls.Call) (a : Answer) (p q : TracedProcess)
        → IsLawful s → handle_of s.opens k number ≡ Some h → h.mode ≡ WriteExcl → by ≢ k → answer_to s by c ≡ Some a
        → live_process s.system h.pid ≡ Some p → live_process a.state.system h.pid ≡ Some q → IsUndisturbed p q }
{}

/// A turn in a process without PR_ASYNC, of which no lwp stands on an event of interest or is directed to stop: it
/// meets nothing traced, and this stays so; or its lwp stops on what it met, and each other one stands still or is
/// directed to stop. Both hold where the process lives still, and what is set on it stays, but for its watched areas.
#[tactic(auto, using(crate::proofs::EventStops::OwnTurnLemmas::quiets))]
pub fn a_quiet_process_halts_at_one_event()
    ensures stays { (s : TracedSystem) (pid : ℕ) (p : TracedProcess) (id : ℕ) (t : LwpTurn) → IsLawfulSystem s
        → live_process s pid ≡ Some p → IsQuiet p → has_flags p.control.modes async_mode ≡ false
        → turn_of s pid id ≡ Some t → (q : TracedProcess) → live_process t.system pid ≡ Some q
        → t.turned.stop ≡ false → IsQuiet q }
    ensures halts { (s : TracedSystem) (pid : ℕ) (p : TracedProcess) (id : ℕ) (t : LwpTurn) → IsLawfulSystem s
        → live_process s pid ≡ Some p → IsQuiet p → has_flags p.control.modes async_mode ≡ false
        → turn_of s pid id ≡ Some t → (q : TracedProcess) → live_process t.system pid ≡ Some q
        → t.turned.stop ≡ true → IsHalting q }
    ensures stands { (s : TracedSystem) (pid : ℕ) (p : TracedProcess) (id : ℕ) (t : LwpTurn) → IsLawfulSystem s
        → live_process s pid ≡ Some p → IsQuiet p → has_flags p.control.modes async_mode ≡ false
        → turn_of s pid id ≡ Some t → (q : TracedProcess) (l : TracedLwp) → live_process t.system pid ≡ Some q
        → t.turned.stop ≡ true → lwp_of q id ≡ Some l → StandsOnEvent l }
    ensures settings { (s : TracedSystem) (pid : ℕ) (p : TracedProcess) (id : ℕ) (t : LwpTurn) → IsLawfulSystem s
        → live_process s pid ≡ Some p → IsQuiet p → has_flags p.control.modes async_mode ≡ false
        → turn_of s pid id ≡ Some t → (q : TracedProcess) → live_process t.system pid ≡ Some q
        → HasSameSettings p q }
{}

/// A process that was left alone stands as it stood: where no lwp could move none can, where each stood still or was
/// directed to stop this is so, and where none was stopped none is. An lwp that stood on an event tells the same event.
#[tactic(auto, using(crate::proofs::EventStops::AloneLemmas::alones))]
pub fn a_process_left_alone_stands_as_it_stood()
    ensures frozen { (p q : TracedProcess) → IsUndisturbed p q → IsFrozen p → IsFrozen q }
    ensures halting { (p q : TracedProcess) → IsUndisturbed p q → IsHalting p → IsHalting q }
    ensures quiet { (p q : TracedProcess) → IsUndisturbed p q → IsQuiet p → IsQuiet q }
    ensures tells { (p q : TracedProcess) → IsUndisturbed p q → (id : ℕ) (l k : TracedLwp) (stop : Stop)
        → lwp_of p id ≡ Some l → lwp_of q id ≡ Some k → l.control.stop ≡ Some stop
        → event_of (lwpstatus_of q id k) ≡ event_of (lwpstatus_of p id l) }
{}

/// PCRUN without flags of a process without an agent, one lwp of which stands on an event while each other one shows a
/// requested stop or a suspension: it is granted, and no lwp is stopped on an event or directed to stop then.
pub fn running_from_one_event_leaves_a_quiet_process()
    ensures granted { (p : TracedProcess) (id : ℕ) → IsRising p.lwps → has_agent p ≡ false → HasOneEvent p id
        → run_refused p ≡ false }
    ensures quiet { (p : TracedProcess) (id : ℕ) → IsRising p.lwps → has_agent p ≡ false → HasOneEvent p id
        → IsQuiet (with_run 0 p) }
{}
