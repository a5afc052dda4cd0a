ghost use Rattle.std.specs.Prelude.{◌≡◌, ◌<◌, ◌++◌, ℕ, All, List, [], ◌∷◌, Option, Some, None, length, true, false};
ghost use Rattle.pr_line.specs.Events.{event_of};
ghost use Rattle.pr_line.specs.declared.events.Event.{Event};
ghost use Rattle.pr_line.specs.declared.options.Options.{Options};
ghost use Rattle.pr_model.specs.Lawful.{IsLawful, IsLawfulSystem};
ghost use Rattle.pr_model.specs.Legal.{IsLegalEntry, after, state_after};
ghost use Rattle.pr_model.specs.LwpTurns.{LwpTurn, turn_of};
ghost use Rattle.pr_model.specs.Running.{with_run};
ghost use Rattle.pr_model.specs.State.{TracedLwp, TracedProcess, TracedState, TracedSystem, live_process};
ghost use Rattle.pr_model.specs.Statuses.{lwpstatus_of};
ghost use Rattle.pr_model.specs.Stops.{representative};
ghost use Rattle.pr_model.specs.declared.events.Act.TheVariants.{Turn};
ghost use Rattle.pr_model.specs.declared.events.Actor.TheVariants.{Lwp};
ghost use Rattle.pr_model.specs.declared.events.Entry.{Entry};
ghost use Rattle.pr_model.specs.declared.events.Turned.{Turned};
ghost use Rattle.pr_num.specs.ById.{IsRising};
ghost use Rattle.pr_reached.specs.Fits.{IsFitLwp};
ghost use Rattle.pr_report_laws.specs.AtBirth.{has_met};
ghost use Rattle.pr_truss.specs.Asides.{marks_at};
ghost use Rattle.pr_truss.specs.FunctionEvents.{function_event};
ghost use Rattle.pr_truss.specs.declared.function_events.FunctionEvent.{FunctionEvent};
ghost use Rattle.pr_truss.specs.declared.marks.Marks.{Marks};
ghost use Rattle.pr_truss.specs.Trusses.{traced_at};
ghost use Rattle.pr_truss_laws.specs.Exchanges.{exchange_of, exchanges};
ghost use Rattle.pr_truss_laws.specs.Stills.{IsUndisturbed};
ghost use Rattle.pr_function_laws.specs.Lifted.{HasControl};
ghost use Rattle.pr_function_laws.specs.Opened.{IsFunctionRun, WasNotInterrupted, functions_at, is_opened};
ghost use Rattle.pr_function_hides.specs.Copying.{CopiesStand, HaveNoCopyGoing, IsLifted, IsNot, IsTracedIn, IsTreated, NoCopyGoesIn, PlantsNone, StandIn, StopsAtCopies, Tells, ends_copy, is_in_copy, makes_copy};

/// Where the lwps of a process stop at the entry of each fork, vfork and exec, and none has been run from there, no
/// turn makes such a call, and it stays so; so it does where others leave the process alone. And so of all but one.
#[tactic(auto, using(crate::proofs::StoppedCopies::CopyTurns::copy_turns))]
pub fn no_copy_is_made_before_its_entry_is_run()
    ensures makes_none { (s : TracedSystem) (pid : ℕ) (p : TracedProcess) (id : ℕ) (t : LwpTurn) → IsLawfulSystem s
        → live_process s pid ≡ Some p → turn_of s pid id ≡ Some t → (but : Option ℕ) → HaveNoCopyGoing but p
        → IsNot but id → makes_copy t.turned.did ≡ false }
    ensures stays { (s : TracedSystem) (pid : ℕ) (p : TracedProcess) (id : ℕ) (t : LwpTurn) → IsLawfulSystem s
        → live_process s pid ≡ Some p → turn_of s pid id ≡ Some t → (but : Option ℕ) → HaveNoCopyGoing but p
        → StopsAtCopies p.control → (q : TracedProcess) → live_process t.system pid ≡ Some q
        → HaveNoCopyGoing but q }
    ensures alone { (but : Option ℕ) (p q : TracedProcess) → IsUndisturbed p q → HaveNoCopyGoing but p
        → HaveNoCopyGoing but q }
{}

/// PCRUN on a process, with whatever run flags, lets no fork, vfork or exec of it go on but that at whose entry its
/// representative stands; and none where the representative is at none.
#[tactic(auto, using(crate::proofs::StoppedCopies::CopyRuns::copy_runs))]
pub fn a_run_lets_one_copy_go_on()
    ensures one { (p : TracedProcess) (flags : ℕ) (e : ℕ × TracedLwp) → IsRising p.lwps
        → representative p ≡ Some e → HaveNoCopyGoing None p → HaveNoCopyGoing (Some e.0) (with_run flags p) }
    ensures none { (p : TracedProcess) (but : Option ℕ) (flags : ℕ) (e : ℕ × TracedLwp) → IsRising p.lwps
        → representative p ≡ Some e → is_in_copy e.1.phase ≡ false → HaveNoCopyGoing but p
        → HaveNoCopyGoing but (with_run flags p) }
    ensures over { (p : TracedProcess) (flags : ℕ) (e : ℕ × TracedLwp) → IsRising p.lwps
        → representative p ≡ Some e → is_in_copy e.1.phase ≡ false → HaveNoCopyGoing (Some e.0) p
        → HaveNoCopyGoing None (with_run flags p) }
{}

/// In a process that truss traces, nothing but a call of truss lets a fork, a vfork or an exec go on, whatever other
/// controllers and processes do.
#[tactic(auto, using(crate::proofs::StoppedCopies::CopyOthers::copy_others))]
pub fn beside_truss_no_copy_goes_on()
    ensures { (n k : ℕ) (o : Options) (s : TracedState) (e : Entry) (pid control : ℕ) (but : Option ℕ) → IsLawful s
        → IsLegalEntry n s e → exchange_of k e ≡ None → HasControl k pid control s
        → IsTracedIn o pid s → NoCopyGoesIn pid but s → NoCopyGoesIn pid but (after s e) }
{}

/// What truss has read of an lwp of a process stands until it runs it. What an event says of the lwp that met it is so
/// as long as the lwp stays at its call and on its stop; and where that one is the representative, then once truss has
/// done what it does at that event PCRUN leaves the forks, vforks and execs of the process as they are to stand with
/// what is planted. Where it was told that one was made, all is lifted. And so PCRUN does where the representative
/// tells no event, or met nothing.
#[tactic(auto, using(crate::proofs::Copying::CopyRows::copy_rows))]
pub fn what_truss_read_stands_until_it_is_run()
    ensures told { (p : TracedProcess) (id : ℕ) (l : TracedLwp) (o : Options) (m : Marks) (ev : Event)
        → event_of (lwpstatus_of p id l) ≡ Some ev → IsFitLwp l → Tells m (function_event o m id ev) l }
    ensures stays { (m : Marks) (e : FunctionEvent) (l k : TracedLwp) → k.control.stop ≡ l.control.stop
        → k.phase ≡ l.phase → Tells m e l → Tells m e k }
    ensures event { (p : TracedProcess) (flags : ℕ) (e : ℕ × TracedLwp) → IsRising p.lwps → representative p ≡ Some e
        → (m : Marks) (its : FunctionEvent) → Tells m its e.1 → (n : Marks) → IsTreated m its n → CopiesStand m p
        → CopiesStand n (with_run flags p) }
    ensures made { (p : TracedProcess) (flags : ℕ) (e : ℕ × TracedLwp) → IsRising p.lwps → representative p ≡ Some e
        → (m : Marks) (its : FunctionEvent) → Tells m its e.1 → ends_copy its ≡ true → CopiesStand m p → IsLifted m }
    ensures none { (p : TracedProcess) (flags : ℕ) (e : ℕ × TracedLwp) → IsRising p.lwps → representative p ≡ Some e
        → (m n : Marks) → event_of (lwpstatus_of p e.0 e.1) ≡ None → PlantsNone m n → n.lifted ≡ m.lifted
        → n.stepped ≡ m.stepped → CopiesStand m p → CopiesStand n (with_run flags p) }
    ensures unmet { (p : TracedProcess) (flags : ℕ) (e : ℕ × TracedLwp) → IsRising p.lwps → representative p ≡ Some e
        → (m n : Marks) → has_met e.1 ≡ false → PlantsNone m n → n.lifted ≡ m.lifted → n.stepped ≡ m.stepped
        → CopiesStand m p → CopiesStand n (with_run flags p) }
{}

/// Between two calls of truss the forks, vforks and execs of a process that it has opened stand as they did, by what it
/// has planted there; and a turn of it that makes such a call, which is granted, finds all lifted.
#[tactic(auto, using(crate::proofs::Copying::CopyStretches::copy_stretches))]
pub fn between_calls_of_truss_copies_stand()
    ensures stays { (n k : ℕ) (o : Options) (s : TracedState) (h before between later : List Entry) (place : ℕ)
        → IsFunctionRun n k o s h → h ≡ before ++ (between ++ later) → All WasNotInterrupted (exchanges k before)
        → exchanges k between ≡ [] → place < length (functions_at k o before).traced
        → is_opened (functions_at k o before).stage place ≡ true
        → StandIn (marks_at (functions_at k o before) place) (traced_at (functions_at k o before) place).pid
        (state_after s before)
        → StandIn (marks_at (functions_at k o before) place) (traced_at (functions_at k o before) place).pid
        (state_after s (before ++ between)) }
    ensures lifted { (n k : ℕ) (o : Options) (s : TracedState) (h before later : List Entry) (place id : ℕ)
        (turned : Turned) (p : TracedProcess) → IsFunctionRun n k o s h
        → h ≡ before
        ++ record { actor = Lwp (traced_at (functions_at k o before) place).pid id; act = Turn turned } ∷ later
        → All WasNotInterrupted (exchanges k before) → place < length (functions_at k o before).traced
        → is_opened (functions_at k o before).stage place ≡ true → makes_copy turned.did ≡ true
        → StandIn (marks_at (functions_at k o before) place) (traced_at (functions_at k o before) place).pid
        (state_after s before)
        → live_process (state_after s before).system (traced_at (functions_at k o before) place).pid ≡ Some p
        → IsLifted (marks_at (functions_at k o before) place) }
{}
