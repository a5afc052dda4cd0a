use pr_num::NoMemory;
use thiserror::Error;

/// Why the text of a core was not read.
#[derive(Clone, Copy, Debug, PartialEq, Eq, Error)]
pub enum CoreTextRefusal {
    /// The first line that is damaged, or the line with the byte at which reading the core stops.
    #[error("line {0}: BadCore")]
    Line(u32),
    #[error("out of memory")]
    NoMemory,
}

impl From<NoMemory> for CoreTextRefusal {
    ghost use Rattle.std.specs.Prelude.{◌≡◌};
    ghost use Rattle.pr_core_text.specs.declared.refusals.CoreTextRefusal.TheVariants as variants;

    ghost from_gives = { λ _ e. e ≡ variants.NoMemory };

    fn from(_error: NoMemory) -> CoreTextRefusal {
        CoreTextRefusal::NoMemory
    }
}
