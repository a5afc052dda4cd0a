ghost use Rattle.std.specs.Prelude.{◌≡◌, ◌<◌, ◌^◌, ◌++◌, ℕ, List, Ok, length};
ghost use Rattle.std.specs.List.{All};
ghost use Rattle.pr_core.specs.CoreBytes.{core_bytes};
ghost use Rattle.pr_core.specs.CoreRanges.{IsCore};
ghost use Rattle.pr_core.specs.CoreText.{core_text};
ghost use Rattle.pr_core.specs.Cores.{CoreState};
ghost use Rattle.pr_core_text.specs.CoreTexts.{core_of};
ghost use Rattle.pr_num.specs.Words.{IsByte};

/// The text of a core, as gcore prints it, is read back as that core, whatever follows it and however lines count. The
/// function does nothing: its clause is what is proved.
pub fn a_cores_text_is_read_back()
    ensures { (c : CoreState) (line : ℕ) (more : List ℕ) → IsCore c → All IsByte (core_bytes c)
        → length (core_bytes c) < 2 ^ 64 → core_of line (core_text (core_bytes c) ++ more) ≡ Ok (core_bytes c) }
{}
