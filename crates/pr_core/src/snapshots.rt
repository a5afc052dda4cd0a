ghost use Rattle.std.specs.Prelude.{◌≡◌, ℕ, List};
ghost use Rattle.pr_model.specs.Readers.{space_seen};
ghost use Rattle.pr_model.specs.Records.{fds_of, lstatus_of, map_of};
ghost use Rattle.pr_model.specs.State.{TracedProcess, TracedSystem};
ghost use Rattle.pr_model.specs.declared.tools.ToolKind.TheVariants.{Pflags, Psig, Pstack, Pmap, Pfiles};
ghost use Rattle.pr_num.specs.Programs.{Program};
ghost use Rattle.pr_rec.specs.RecordBytes.{fds_bytes, lstatus_bytes, map_bytes, sigact_bytes};
ghost use Rattle.pr_tools.specs.RecordTexts.{text_of_record};
ghost use Rattle.pr_tools.specs.SpaceStacks.{lwps_stacks};
ghost use Rattle.pr_core.specs.CoreTools.{core_space, tool_over_core};
ghost use Rattle.pr_core.specs.Snapshots.{snapshot};

/// The core of a process in a state has the memory that the process shows there. A tool over it prints what the tool
/// makes of the file that it reads of the process in that state, and pstack the stacks of its lwps in its memory.
pub fn tools_over_a_snapshot_show_the_process()
    ensures memory { (pid : ℕ) (s : TracedSystem) (p : TracedProcess) → core_space (snapshot pid s p) ≡ space_seen s p }
    ensures pflags { (pid : ℕ) (s : TracedSystem) (p : TracedProcess) (programs : List Program)
        → tool_over_core Pflags (snapshot pid s p) programs ≡ text_of_record Pflags pid (lstatus_bytes (lstatus_of p)) }
    ensures psig { (pid : ℕ) (s : TracedSystem) (p : TracedProcess) (programs : List Program)
        → tool_over_core Psig (snapshot pid s p) programs ≡ text_of_record Psig pid (sigact_bytes p.dispositions) }
    ensures pstack { (pid : ℕ) (s : TracedSystem) (p : TracedProcess) (programs : List Program)
        → tool_over_core Pstack (snapshot pid s p) programs ≡ lwps_stacks pid programs (space_seen s p) (lstatus_of p) }
    ensures pmap { (pid : ℕ) (s : TracedSystem) (p : TracedProcess) (programs : List Program)
        → tool_over_core Pmap (snapshot pid s p) programs ≡ text_of_record Pmap pid (map_bytes (map_of s p)) }
    ensures pfiles { (pid : ℕ) (s : TracedSystem) (p : TracedProcess) (programs : List Program)
        → tool_over_core Pfiles (snapshot pid s p) programs ≡ text_of_record Pfiles pid (fds_bytes (fds_of s.files p)) }
{}
