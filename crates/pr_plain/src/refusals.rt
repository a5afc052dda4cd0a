use pr_num::NoMemory;
use thiserror::Error;

/// Why the text of a history was not read.
#[derive(Clone, Copy, Debug, PartialEq, Eq, Error)]
pub enum HistRefusal {
    /// The first line that is wrong.
    #[error("line {0}: BadHistory")]
    Line(u32),
    #[error("out of memory")]
    NoMemory,
}

impl From<NoMemory> for HistRefusal {
    ghost use Rattle.std.specs.Prelude.{◌≡◌};
    ghost use Rattle.pr_plain.specs.declared.refusals.HistRefusal.TheVariants as variants;

    ghost from_gives = { λ _ e. e ≡ variants.NoMemory };

    fn from(_error: NoMemory) -> HistRefusal {
        HistRefusal::NoMemory
    }
}

/// Why words were not read.
#[derive(Clone, Copy)]
pub enum Refused {
    /// They are not what stands in their place in the text of a history.
    Malformed,
    NoMemory(NoMemory),
}

impl From<NoMemory> for Refused {
    ghost use Rattle.std.specs.Prelude.{◌≡◌};
    ghost use Rattle.pr_plain.specs.declared.refusals.Refused.TheVariants as variants;

    ghost from_gives = { λ error e. e ≡ variants.NoMemory error };

    fn from(error: NoMemory) -> Refused {
        Refused::NoMemory(error)
    }
}
