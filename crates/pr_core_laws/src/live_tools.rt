ghost use Rattle.std.specs.Prelude.{◌≡◌, ℕ, List, Some};
ghost use Rattle.pr_core.specs.CoreTools.{tool_over_core};
ghost use Rattle.pr_core.specs.Snapshots.{snapshot};
ghost use Rattle.pr_model.specs.Lawful.{IsLawfulSystem};
ghost use Rattle.pr_model.specs.State.{TracedProcess, TracedSystem, live_process};
ghost use Rattle.pr_model.specs.declared.tools.ToolKind.TheVariants.{Pflags, Psig, Pstack, Pmap, Pfiles};
ghost use Rattle.pr_num.specs.Programs.{Program};
ghost use Rattle.pr_reached.specs.InRange.{IsInRange};
ghost use Rattle.pr_tool_laws.specs.Stacks.{stacks_in};
ghost use Rattle.pr_tool_laws.specs.ToolTexts.{tool_text};

/// In a lawful system in range each of the five tools prints of the core of a live process what it prints of the
/// process
/// itself, however its lwps stand: pflags, psig, pmap and pfiles of its records, and pstack of its memory and its lwps,
/// with the labels of the same programs.
pub fn tools_over_a_snapshot_show_the_live_process()
    ensures pflags { (pid : ℕ) (s : TracedSystem) (p : TracedProcess) (programs : List Program) → IsLawfulSystem s
        → IsInRange s → live_process s pid ≡ Some p
        → tool_text Pflags pid s ≡ Some (tool_over_core Pflags (snapshot pid s p) programs) }
    ensures psig { (pid : ℕ) (s : TracedSystem) (p : TracedProcess) (programs : List Program) → IsLawfulSystem s
        → IsInRange s → live_process s pid ≡ Some p
        → tool_text Psig pid s ≡ Some (tool_over_core Psig (snapshot pid s p) programs) }
    ensures pstack { (pid : ℕ) (s : TracedSystem) (p : TracedProcess) (programs : List Program)
        → live_process s pid ≡ Some p
        → stacks_in pid programs s ≡ Some (tool_over_core Pstack (snapshot pid s p) programs) }
    ensures pmap { (pid : ℕ) (s : TracedSystem) (p : TracedProcess) (programs : List Program) → IsLawfulSystem s
        → IsInRange s → live_process s pid ≡ Some p
        → tool_text Pmap pid s ≡ Some (tool_over_core Pmap (snapshot pid s p) programs) }
    ensures pfiles { (pid : ℕ) (s : TracedSystem) (p : TracedProcess) (programs : List Program) → IsLawfulSystem s
        → IsInRange s → live_process s pid ≡ Some p
        → tool_text Pfiles pid s ≡ Some (tool_over_core Pfiles (snapshot pid s p) programs) }
{}
