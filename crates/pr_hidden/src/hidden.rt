ghost use Rattle.std.specs.Prelude.{◌≡◌, true, false, None, Some, ℕ, List, ◌∷◌, []};
ghost use Rattle.pr_num.specs.Agents.{agent_id};
ghost use Rattle.pr_num.specs.ById.{IsRising};
ghost use Rattle.pr_num.specs.Spaces.{Space};
ghost use Rattle.pr_num.specs.declared.faults.Flt.{Flt as AnyFault};
ghost use Rattle.pr_model.specs.Changes.{Change, all_changed, with_space};
ghost use Rattle.pr_model.specs.Erasure.{uncontrolled_system};
ghost use Rattle.pr_model.specs.Lives.{without_lwp};
ghost use Rattle.pr_model.specs.Machines.{traced};
ghost use Rattle.pr_model.specs.Messages.{with_agent};
ghost use Rattle.pr_model.specs.Moves.{Move, moved};
ghost use Rattle.pr_model.specs.Running.{with_step, without_fault};
ghost use Rattle.pr_model.specs.State.{TracedLwp, TracedProcess, TracedSystem, live_process, lwp_of, with_lwp_of, with_process};
ghost use Rattle.pr_model.specs.declared.lwps.Phase.TheVariants.{Faulted};
ghost use Rattle.pr_hidden.specs.Covers.{Covers, Patch, keeps_lwp, seen, with_cover};
ghost use Rattle.pr_hidden.specs.Hiding.{ChangesOwn, IsSeenAlike, Stands, with_fault, with_own_agent, with_patches};

/// What leaves a state but for what controllers set, as a stop, a run, or a traced set, leaves what programs see,
/// whatever is hidden of it; and so does a step mark.
#[tactic(auto, using(crate::proofs::Covers::BareCovers::controls, crate::proofs::Covers::HiddenCovers::marking))]
pub fn what_controllers_set_is_hidden()
    ensures set { (covers : Covers) (s t : TracedSystem) → uncontrolled_system t ≡ uncontrolled_system s
        → seen covers t ≡ seen covers s }
    ensures marked { (covers : Covers) (s : TracedSystem) (pid id : ℕ)
        → seen covers (with_lwp_of pid id with_step s) ≡ seen covers s }
{}

/// Patches that come and go with the memory under them are hidden: programs see nothing of it where they have the same
/// space after it as before.
#[tactic(auto, using(crate::proofs::Covers::HiddenCovers::patching))]
pub fn patching_is_hidden()
    ensures { (covers : Covers) (s : TracedSystem) (pid : ℕ) (p : TracedProcess) (patches : List Patch) (space : Space)
        → IsRising s.processes → live_process s pid ≡ Some p → IsSeenAlike patches space (covers pid).patches p.space
        → seen (with_cover pid (with_patches patches (covers pid)) covers) (with_process pid (with_space space) s)
        ≡ seen covers s }
{}

/// A fault of the controller's that is cleared (PRCFAULT, PCCFAULT) is hidden: it was none to the programs before.
#[tactic(auto, using(crate::proofs::Covers::HiddenCovers::clearing))]
pub fn clearing_an_own_fault_is_hidden()
    ensures { (covers : Covers) (s : TracedSystem) (pid : ℕ) (p : TracedProcess) (id : ℕ) (l : TracedLwp)
        (f : AnyFault) (address : ℕ)
        → Stands s pid p id l → keeps_lwp (covers pid) id ≡ true → (covers pid).faulted id ≡ true
        → l.phase ≡ Faulted f address
        → seen (with_cover pid (with_fault id false (covers pid)) covers) (with_lwp_of pid id without_fault s)
        ≡ seen covers s }
{}

/// The agent of a controller comes (PCAGENT) and goes (lwp_exit(2)) without a trace, and whatever it does between, it
/// is not seen, as long as it changes nothing but patched bytes of its own memory.
#[tactic(auto, using(crate::proofs::Covers::HiddenCovers::agents))]
pub fn an_own_agent_is_hidden()
    ensures comes { (covers : Covers) (s : TracedSystem) (pid : ℕ) (p : TracedProcess) (regs : List ℕ)
        → IsRising s.processes → live_process s pid ≡ Some p → (covers pid).agent ≡ false → lwp_of p agent_id ≡ None
        → seen (with_cover pid (with_own_agent true (covers pid)) covers) (with_process pid (with_agent regs) s)
        ≡ seen covers s }
    ensures moves { (covers : Covers) (s : TracedSystem) (pid : ℕ) (p : TracedProcess) (id : ℕ) (l : TracedLwp)
        (m : Move) (cs : List Change)
        → IsRising s.processes → live_process s pid ≡ Some p → keeps_lwp (covers pid) id ≡ false
        → ChangesOwn (covers pid).patches p.space cs
        → seen covers (with_lwp_of pid id (moved traced m) (all_changed traced pid p id l cs s)) ≡ seen covers s }
    ensures goes { (covers : Covers) (s : TracedSystem) (pid : ℕ) (p : TracedProcess)
        → IsRising s.processes → live_process s pid ≡ Some p → IsRising p.lwps → (covers pid).agent ≡ true
        → seen (with_cover pid (with_own_agent false (covers pid)) covers)
        (with_process pid (without_lwp agent_id) s) ≡ seen covers s }
{}
