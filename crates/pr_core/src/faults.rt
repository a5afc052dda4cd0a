use pr_num::NoMemory;
use thiserror::Error;

/// Why bytes are no core.
#[derive(Clone, Copy, Debug, PartialEq, Eq, Error)]
pub enum CoreFault {
    /// The word that begins at byte `at` is cut off, or the bytes of a section that begin there are.
    #[error("cut off at byte {at}")]
    Short { at: usize },
    /// The word that begins at byte `at` is the first that cannot stand there, or the core ends before that byte.
    #[error("bad word at byte {at}")]
    Bad { at: usize },
    #[error("out of memory")]
    NoMemory,
}

impl From<NoMemory> for CoreFault {
    ghost use Rattle.std.specs.Prelude.{◌≡◌};
    ghost use Rattle.pr_core.specs.declared.faults.CoreFault.TheVariants as variants;

    ghost from_gives = { λ _ e. e ≡ variants.NoMemory };

    fn from(_error: NoMemory) -> CoreFault {
        CoreFault::NoMemory
    }
}
