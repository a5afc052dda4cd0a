ghost use Rattle.std.specs.Prelude.{◌≡◌, true, false, Some, ℕ, Bool, Option, List, ◌∷◌, []};
ghost use Rattle.pr_num.specs.declared.faults.Flt.TheVariants.{Bpt};
ghost use Rattle.pr_num.specs.declared.syscalls.Sysno.{Sysno as AnyCall};
ghost use Rattle.pr_model.specs.InstructionEffects.{Store, faults, instruction_effect, runs};
ghost use Rattle.pr_model.specs.LwpTurns.{LwpTurn, turn_of};
ghost use Rattle.pr_model.specs.State.{TracedLwp, TracedProcess, TracedSystem, live_process, lwp_of};
ghost use Rattle.pr_model.specs.UntracedMachine.{UntracedRun};
ghost use Rattle.pr_model.specs.UntracedSteps.{steps_of_turn};
ghost use Rattle.pr_model.specs.declared.steps.Step.TheVariants.{Exec};
ghost use Rattle.pr_hidden.specs.Covers.{Covers, seen, with_cover};
ghost use Rattle.pr_hidden.specs.Following.{IsOpenTurn, RunsInstruction};
ghost use Rattle.pr_hidden.specs.Hiding.{GoesBack, IsUnhampered, Stands, with_fault};
ghost use Rattle.pr_hidden.specs.Sparing.{AreWithin, spares_instruction};

/// A turn that is nothing of a controller's is what it would be without controllers: the machine without them can make
/// its steps from what programs see before it, and they lead to what programs see after it.
#[tactic(auto, using(crate::proofs::Covers::RunCovers::opens))]
pub fn open_turns_are_steps()
    ensures { (covers : Covers) (s : TracedSystem) (pid id : ℕ) (t : LwpTurn) (p : TracedProcess) (l : TracedLwp)
        (returning : Bool)
        → turn_of s pid id ≡ Some t → live_process s pid ≡ Some p → lwp_of p id ≡ Some l
        → IsOpenTurn covers s pid p id l → IsUnhampered p id l
        → UntracedRun (seen covers s) (steps_of_turn returning pid id t.turned.did) (seen covers t.system) }
{}

/// A turn that runs into a breakpoint of the controller's is nothing: programs see what they saw before, once the lwp
/// is noted as one at a fault of the controller's.
#[tactic(auto, using(crate::proofs::Covers::RunCovers::breakpoints))]
pub fn breakpoints_are_hidden()
    ensures { (covers : Covers) (s : TracedSystem) (pid id : ℕ) (t : LwpTurn) (p : TracedProcess) (l : TracedLwp)
        (address : ℕ)
        → turn_of s pid id ≡ Some t → Stands s pid p id l → RunsInstruction p l
        → instruction_effect p.space p.control.areas l.regs ≡ faults Bpt address → (covers pid).agent ≡ false
        → (covers pid).faulted id ≡ false
        → seen (with_cover pid (with_fault id true (covers pid)) covers) t.system ≡ seen covers s }
{}

/// A turn that a controller makes an lwp take by a step mark, and that ends at FLTTRACE, is the instruction that it
/// ran.
#[tactic(auto, using(crate::proofs::Covers::RunCovers::steps))]
pub fn stepped_instructions_are_instructions()
    ensures { (covers : Covers) (s : TracedSystem) (pid id : ℕ) (p : TracedProcess) (l : TracedLwp)
        → Stands s pid p id l → (covers pid).agent ≡ false → (covers pid).faulted id ≡ false
        → (t : LwpTurn) (regs : List ℕ) (store : Option Store) → turn_of s pid id ≡ Some t → RunsInstruction p l
        → instruction_effect p.space p.control.areas l.regs ≡ runs regs store → l.control.step ≡ true
        → AreWithin (covers pid).patches → spares_instruction (covers pid).patches p.space l.regs ≡ true
        → IsUnhampered p id l
        → UntracedRun (seen covers s) (Exec pid id ∷ [])
        (seen (with_cover pid (with_fault id true (covers pid)) covers) t.system) }
{}

/// The same mark on the way out of a call is the return from it, of which programs see nothing.
pub fn stepped_returns_are_hidden()
    ensures { (covers : Covers) (s : TracedSystem) (pid id : ℕ) (t : LwpTurn) (p : TracedProcess) (l : TracedLwp)
        (call : AnyCall)
        → turn_of s pid id ≡ Some t → Stands s pid p id l → GoesBack p l call → l.control.step ≡ true
        → (covers pid).agent ≡ false
        → seen (with_cover pid (with_fault id true (covers pid)) covers) t.system ≡ seen covers s }
{}
