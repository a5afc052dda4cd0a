ghost use Rattle.std.specs.Prelude.{ℕ, List};
ghost use Rattle.pr_num.specs.Spaces.{Space};
ghost use Rattle.pr_parts.specs.AddressSpaces.{with_bytes};
ghost use Rattle.pr_hidden.specs.Covers.{Patch};
ghost use Rattle.pr_hidden.specs.Hiders.{Hiders, patches_written};
ghost use Rattle.pr_hidden.specs.Hiding.{IsSeenAlike};
ghost use Rattle.pr_hidden.specs.Tidiness.{AreSound, IsTidyWrite};

/// What a controller that hides writes is nothing to programs: a breakpoint where the function's code stands and the
/// code again, and a probe's agent and what stood in its place. And the patches stay apart.
#[tactic(auto, using(crate::proofs::PatchedSpaces::WrittenCovers::writes))]
pub fn tidy_writes_are_hidden()
    ensures alike { (who : Hiders) (k : ℕ) (ps : List Patch) (space : Space) (at : ℕ) (bytes : List ℕ)
        → AreSound ps → IsTidyWrite who k ps space at bytes
        → IsSeenAlike (patches_written who k space at bytes ps) (with_bytes at bytes space) ps space }
    ensures sound { (who : Hiders) (k : ℕ) (ps : List Patch) (space : Space) (at : ℕ) (bytes : List ℕ)
        → AreSound ps → IsTidyWrite who k ps space at bytes → AreSound (patches_written who k space at bytes ps) }
{}
