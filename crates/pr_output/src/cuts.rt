use pr_io::Failed;
use pr_num::NoMemory;

/// Why a text was not written whole.
#[derive(Clone, Copy, Debug, PartialEq, Eq)]
pub enum Cut {
    /// A write failed.
    WriteFailed,
    NoMemory,
}

impl From<Failed> for Cut {
    ghost use Rattle.std.specs.Prelude.{◌≡◌};
    ghost use Rattle.pr_output.specs.declared.cuts.Cut.TheVariants as variants;

    ghost from_gives = { λ _ e. e ≡ variants.WriteFailed };

    fn from(_failed: Failed) -> Cut {
        Cut::WriteFailed
    }
}

impl From<NoMemory> for Cut {
    ghost use Rattle.std.specs.Prelude.{◌≡◌};
    ghost use Rattle.pr_output.specs.declared.cuts.Cut.TheVariants as variants;

    ghost from_gives = { λ _ e. e ≡ variants.NoMemory };

    fn from(_error: NoMemory) -> Cut {
        Cut::NoMemory
    }
}
