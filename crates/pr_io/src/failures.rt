ghost use Rattle.std.specs.Prelude.{◌≡◌};
ghost use Rattle.pr_io.specs.Faults.{raised};

use thiserror::Error;

/// A read or a write failed. The count of faults of the source or sink rose in the call.
#[derive(Clone, Copy, Debug, PartialEq, Eq, Error)]
#[error("a read or a write failed")]
pub struct Failed;

/// A count with one more in it; at 2^64 - 1 it stays.
#[tactic(auto, unfolding(crate::specs::Faults::raised))]
pub(crate) fn raised(count: u64) -> u64
    ensures { result ≡ raised count }
{
    count.saturating_add(1)
}
