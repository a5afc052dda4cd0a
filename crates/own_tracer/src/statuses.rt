//! How the program ends.
ghost use Rattle.std.specs.Prelude.{◌≡◌};
ghost use Rattle.own_tracer.specs.Statuses.{number};

/// How the program ended.
#[derive(Clone, Copy, Debug, PartialEq, Eq)]
pub enum Status {
    /// The history was written.
    Done = 0,
    /// The input is no scenario.
    Refused = 2,
    /// A read failed.
    ReadFailed = 5,
    /// A write failed.
    WriteFailed = 6,
    /// Memory ran out.
    OutOfMemory = 7,
}

/// The number of a status.
#[tactic(auto, unfolding(crate::specs::Statuses::number))]
pub fn number(status: Status) -> u8
    ensures { result ≡ number status }
{
    status as u8
}
