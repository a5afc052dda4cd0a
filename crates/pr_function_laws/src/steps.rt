ghost use Rattle.std.specs.Prelude.{◌≡◌, ◌≢◌, ◌+◌, ℕ, true, false, Some, None};
ghost use Rattle.pr_num.specs.Control.{async_mode, clear_fault, has_flags, single_step};
ghost use Rattle.pr_num.specs.ById.{IsRising};
ghost use Rattle.pr_num.specs.Limits.{all_faults, all_signals};
ghost use Rattle.pr_num.specs.declared.faults.Flt.{Flt as AnyFault};
ghost use Rattle.pr_model.specs.Lawful.{IsLawful, IsLawfulSystem};
ghost use Rattle.pr_model.specs.Legal.{IsLegalEntry, after};
ghost use Rattle.pr_model.specs.LwpTurns.{LwpTurn, turn_of};
ghost use Rattle.pr_model.specs.Messages.{tracing_faults, tracing_signals};
ghost use Rattle.pr_model.specs.Running.{run_lwp, with_run};
ghost use Rattle.pr_model.specs.State.{TracedControl, TracedLwp, TracedProcess, TracedState, TracedSystem, live_process, lwp_of, with_lwp};
ghost use Rattle.pr_model.specs.Stops.{representative};
ghost use Rattle.pr_model.specs.declared.events.Actor.TheVariants.{Controller};
ghost use Rattle.pr_model.specs.declared.events.Did.TheVariants.{Stopped};
ghost use Rattle.pr_model.specs.declared.events.Entry.{Entry};
ghost use Rattle.pr_model.specs.declared.lwps.Phase.TheVariants.{Faulted as AtFault};
ghost use Rattle.pr_truss_laws.specs.Handles.{HasNoOtherWriter};
ghost use Rattle.pr_truss_laws.specs.Stills.{IsHalting, IsUndisturbed, with_lwp_stopped};
ghost use Rattle.pr_reached.specs.Fits.{IsFitProcess};
ghost use Rattle.pr_function_laws.specs.Steps.{IsStepped, RunsNoCall, StepGoesOn, StopsAtAll};

/// PCRUN with PRSTEP on a process runs the representative alone, and leaves each other lwp as it is. Where that one
/// stands at a fault and PRCFAULT is given too, while each other lwp stands still or is directed to stop, it is stepped
/// alone then.
#[tactic(auto, using(crate::proofs::Stepping::StepLemmas::steps))]
pub fn a_step_runs_the_representative_alone()
    ensures one { (p : TracedProcess) (id flags : ℕ) (l : TracedLwp) → representative p ≡ Some (id, l)
        → has_flags flags single_step ≡ true → with_run flags p ≡ with_lwp id (run_lwp flags) p }
    ensures stepped { (p : TracedProcess) (id : ℕ) (l : TracedLwp) (f : AnyFault) (address : ℕ) → IsRising p.lwps
        → representative p ≡ Some (id, l) → l.phase ≡ AtFault f address → l.current ≡ None → IsHalting p
        → IsStepped (with_run (clear_fault + single_step) p) id (run_lwp (clear_fault + single_step) l) }
{}

/// Beside an lwp that is stepped alone a turn of another one does nothing but that it stops as it was directed to: it
/// begins no instruction, and the lwp is stepped alone still.
#[tactic(auto, using(crate::proofs::Stepping::StepLemmas::steps))]
pub fn beside_a_step_other_lwps_only_stop()
    ensures did { (s : TracedSystem) (pid : ℕ) (p : TracedProcess) (id : ℕ) (l : TracedLwp) (other : ℕ) (t : LwpTurn)
        → live_process s pid ≡ Some p → IsStepped p id l → other ≢ id → turn_of s pid other ≡ Some t
        → t.turned ≡ record { did = Stopped; stop = false } }
    ensures leaves { (s : TracedSystem) (pid : ℕ) (p : TracedProcess) (id : ℕ) (l : TracedLwp) (other : ℕ) (t : LwpTurn)
        → live_process s pid ≡ Some p → IsStepped p id l → other ≢ id → turn_of s pid other ≡ Some t
        → live_process t.system pid ≡ Some (with_lwp_stopped other p) }
    ensures stays { (p : TracedProcess) (id : ℕ) (l : TracedLwp) (other : ℕ) → IsStepped p id l → other ≢ id
        → IsStepped (with_lwp_stopped other p) id l }
{}

/// What others do that leave a process alone does not change that an lwp of it is stepped alone.
#[tactic(auto, using(crate::proofs::Stepping::StepLemmas::steps))]
pub fn a_step_that_is_left_alone_goes_on()
    ensures { (p q : TracedProcess) (id : ℕ) (l k : TracedLwp) → IsUndisturbed p q → IsStepped p id l
        → lwp_of q id ≡ Some k → IsStepped q id k }
{}

/// A process of which PCSTRACE set all signals to be traced, and PCSFAULT all faults, stops at all of them, and directs
/// the other lwps to stop unless PR_ASYNC is set.
#[tactic(auto, using(crate::proofs::Stepping::HaltingSteps::traces))]
pub fn tracing_all_makes_a_process_stop_at_all()
    ensures { (c : TracedControl) → has_flags c.modes async_mode ≡ false
        → StopsAtAll (tracing_faults all_faults (tracing_signals all_signals c)) }
{}

/// The next turn of an lwp that is stepped alone, in a process that stops at every signal but SIGKILL and at every
/// fault, and of which the next instruction is no system call, stops it on an event; and from then on each lwp of the
/// process stands still or is directed to stop. SIGKILL pends for no process that the machine reaches.
#[tactic(auto, using(crate::proofs::Stepping::HaltingSteps::halts))]
pub fn a_stepped_lwp_halts_at_one_event()
    ensures stops { (s : TracedSystem) (pid : ℕ) (p : TracedProcess) (id : ℕ) (l : TracedLwp) (t : LwpTurn)
        → live_process s pid ≡ Some p → IsStepped p id l → StopsAtAll p.control → RunsNoCall p l → IsFitProcess p
        → turn_of s pid id ≡ Some t → t.turned.stop ≡ true }
    ensures halts { (s : TracedSystem) (pid : ℕ) (p : TracedProcess) (id : ℕ) (l : TracedLwp) (t : LwpTurn)
        → IsLawfulSystem s → live_process s pid ≡ Some p → IsStepped p id l → StopsAtAll p.control → RunsNoCall p l
        → IsFitProcess p → turn_of s pid id ≡ Some t → (q : TracedProcess)
        → live_process t.system pid ≡ Some q → IsHalting q }
{}

/// While an lwp of a process is stepped alone, an entry of a history that is not of the one controller that has the
/// process open for writing leaves it so; or it was its own turn, and each lwp of the process stands still or is
/// directed to stop; or the process has ended. With the law on the other lwps: none of them begins an instruction until
/// then.
#[tactic(auto, using(crate::proofs::Stepping::OtherSteps::others))]
pub fn a_step_goes_on_until_its_own_turn()
    ensures { (n : ℕ) (s : TracedState) (k pid id : ℕ) (p : TracedProcess) (l : TracedLwp) (e : Entry) → IsLawful s
        → HasNoOtherWriter k pid s.opens → live_process s.system pid ≡ Some p → IsStepped p id l
        → StopsAtAll p.control → RunsNoCall p l → IsFitProcess p → IsLegalEntry n s e → e.actor ≢ Controller k
        → StepGoesOn pid id (after s e).system }
{}
