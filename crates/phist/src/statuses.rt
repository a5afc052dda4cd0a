ghost use Rattle.std.specs.Prelude.{◌≡◌};
ghost use Rattle.phist.specs.Telling.{number};

/// How a call of the program ended.
#[derive(Clone, Copy, Debug, PartialEq, Eq)]
pub enum Status {
    /// The history was told.
    Done = 0,
    /// The words ask for nothing.
    Usage = 1,
    /// The input is refused.
    Refused = 2,
    /// A read failed.
    ReadFailed = 5,
    /// A write failed.
    WriteFailed = 6,
    /// Memory ran out.
    OutOfMemory = 7,
}

/// The number of a status.
#[tactic(auto, unfolding(crate::specs::Telling::number))]
pub fn number(status: Status) -> u8
    ensures { result ≡ number status }
{
    status as u8
}
