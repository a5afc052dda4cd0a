ghost use Rattle.std.specs.Prelude.{◌≡◌, ℕ, List};
ghost use Rattle.pr_num.specs.declared.syscalls.Sysno.{Sysno as AnyCall};
ghost use Rattle.pr_model.specs.CallEffects.{call_effect};
ghost use Rattle.pr_model.specs.Erasure.{erased_lwp, erased_process, erased_system};
ghost use Rattle.pr_model.specs.State.{TracedLwp, TracedProcess, TracedSystem};

/// What a system call does is decided by what programs see: controllers cannot change it.
#[tactic(auto, using(crate::proofs::SeenTurns::DecisionLemmas::decided))]
pub fn calls_see_what_programs_see()
    ensures { (s : TracedSystem) (pid : ℕ) (p : TracedProcess) (id : ℕ) (l : TracedLwp) (since : ℕ) (call : AnyCall)
        (args : List ℕ)
        → call_effect (erased_system s) pid (erased_process p) id (erased_lwp l) since call args
        ≡ call_effect s pid p id l since call args }
{}
