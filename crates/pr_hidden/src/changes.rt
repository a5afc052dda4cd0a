ghost use Rattle.std.specs.Prelude.{◌≡◌, true, false, ℕ, Bool, List};
ghost use Rattle.pr_num.specs.Spaces.{Space};
ghost use Rattle.pr_num.specs.declared.mappings.Area.{Area};
ghost use Rattle.pr_num.specs.declared.syscalls.Sysno.{Sysno as AnyCall};
ghost use Rattle.pr_model.specs.CallEffects.{call_effect};
ghost use Rattle.pr_model.specs.Changes.{Change, changed};
ghost use Rattle.pr_model.specs.InstructionEffects.{instruction_effect};
ghost use Rattle.pr_model.specs.Machines.{traced};
ghost use Rattle.pr_model.specs.State.{TracedLwp, TracedProcess, TracedSystem};
ghost use Rattle.pr_hidden.specs.Covers.{Cover, Covers, Patch, patched, uncovered, uncovered_lwp, uncovered_process};
ghost use Rattle.pr_hidden.specs.Following.{Allows, patched_change, patched_effect};
ghost use Rattle.pr_hidden.specs.Sparing.{AreWithin, spares_call, spares_instruction};

/// Whatever a turn changes of the system, the system without what is hidden changes alike, but that the space which is
/// left is as programs have it. A child is made and a program run without patches there; an lwp is made where no agent
/// is hidden; and a process that is killed returns what it borrowed as it is seen there.
#[tactic(auto, using(crate::proofs::Covers::ChangeCovers::follows))]
pub fn changes_are_followed()
    ensures { (covers : Covers) (pid : ℕ) (p : TracedProcess) (id : ℕ) (l : TracedLwp) (c : Change) (s : TracedSystem)
        → Allows covers s pid p id c
        → uncovered covers (changed traced pid p id l c s)
        ≡ changed traced pid (uncovered_process (covers pid) p) id (uncovered_lwp ((covers pid).faulted id) l)
        (patched_change (covers pid).patches c) (uncovered covers s) }
{}

/// A system call that touches no patch, in a process of which no agent is hidden, does the same without what is hidden,
/// but that the space which it leaves is as programs have it.
#[tactic(auto, using(crate::proofs::Covers::CallCovers::follows))]
pub fn calls_spare_patches()
    ensures { (covers : Covers) (s : TracedSystem) (pid : ℕ) (p : TracedProcess) (id : ℕ) (own : Bool)
        (l : TracedLwp) (c : Cover)
        → c.agent ≡ false → AreWithin c.patches → (since : ℕ) (call : AnyCall) (args : List ℕ)
        → spares_call c.patches p.space call args ≡ true
        → call_effect (uncovered covers s) pid (uncovered_process c p) id (uncovered_lwp own l) since call args
        ≡ patched_effect c.patches (call_effect s pid p id l since call args) }
{}

/// An instruction that touches no patch, neither with its fetch nor with its data, does the same in the space as
/// programs have it, also where areas are watched.
#[tactic(auto, using(crate::proofs::Covers::InstructionCovers::follows))]
pub fn instructions_spare_patches()
    ensures { (patches : List Patch) (space : Space) (areas : List Area) (regs : List ℕ)
        → spares_instruction patches space regs ≡ true
        → instruction_effect (patched patches space) areas regs ≡ instruction_effect space areas regs }
{}
