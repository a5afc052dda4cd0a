ghost use Rattle.std.specs.Prelude.{◌≡◌};

use pr_num::NoMemory;
use thiserror::Error;

/// Why there is no new lock.
#[derive(Clone, Copy, Debug, PartialEq, Eq, Error)]
pub enum NewNo {
    /// There was no memory for the lock.
    #[error("out of memory")]
    NoMemory,
    /// The first swap on the new lock found this word, which is not 0. No run reaches it, and the contract of
    /// `Shared::new` says so.
    #[error("the new lock was taken: found {found}")]
    Taken { found: u64 },
}

impl From<NoMemory> for NewNo {
    ghost use Rattle.pr_lock.specs.declared.refusals.NewNo.TheVariants.{NoMemory};

    ghost from_gives = { λ _ refusal. refusal ≡ NoMemory };

    fn from(_memory: NoMemory) -> NewNo {
        NewNo::NoMemory
    }
}
