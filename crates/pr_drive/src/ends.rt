//! How a session ends.
ghost use Rattle.std.specs.Prelude.{◌≡◌};
ghost use Rattle.pr_drive.specs.Statuses.{number, status_of};

use pr_io::{Failed, ReadEnd};
use pr_num::NoMemory;
use pr_output::Cut;

/// How a call of the program ended.
#[derive(Clone, Copy, Debug, PartialEq, Eq)]
pub enum Status {
    /// The session was ended, and every controller of the scenario has finished or can still move.
    Done = 0,
    /// The words ask for nothing.
    Usage = 1,
    /// The scenario is refused.
    Refused = 2,
    /// The history has all its entries, and an actor could move still.
    Spent = 3,
    /// No actor can move, and a controller of the scenario has not finished.
    Stuck = 4,
    /// A read failed.
    ReadFailed = 5,
    /// A write failed.
    WriteFailed = 6,
    /// Memory ran out.
    OutOfMemory = 7,
}

/// The number of a status.
#[tactic(auto, unfolding(crate::specs::Statuses::number))]
pub fn number(status: Status) -> u8
    ensures { result ≡ number status }
{
    status as u8
}

/// Why a session was cut off.
#[derive(Clone, Copy, Debug, PartialEq, Eq)]
pub enum CutOff {
    ReadFailed,
    WriteFailed,
    NoMemory,
}

impl From<NoMemory> for CutOff {
    ghost use Rattle.std.specs.Prelude.{◌≡◌};
    ghost use Rattle.pr_drive.specs.declared.ends.CutOff.TheVariants as variants;

    ghost from_gives = { λ _ e. e ≡ variants.NoMemory };

    fn from(_error: NoMemory) -> CutOff {
        CutOff::NoMemory
    }
}

impl From<Failed> for CutOff {
    ghost use Rattle.std.specs.Prelude.{◌≡◌};
    ghost use Rattle.pr_drive.specs.declared.ends.CutOff.TheVariants as variants;

    ghost from_gives = { λ _ e. e ≡ variants.WriteFailed };

    fn from(_failed: Failed) -> CutOff {
        CutOff::WriteFailed
    }
}

impl From<Cut> for CutOff {
    ghost use Rattle.std.specs.Prelude.{◌≡◌};
    ghost use Rattle.pr_drive.specs.Statuses.{cut_off};

    ghost from_gives = { λ cut e. e ≡ cut_off cut };

    fn from(cut: Cut) -> CutOff {
        match cut {
            Cut::WriteFailed => CutOff::WriteFailed,
            Cut::NoMemory => CutOff::NoMemory,
        }
    }
}

impl From<ReadEnd> for CutOff {
    ghost use Rattle.std.specs.Prelude.{◌≡◌};
    ghost use Rattle.pr_drive.specs.Statuses.{read_off};

    ghost from_gives = { λ end e. e ≡ read_off end };

    fn from(end: ReadEnd) -> CutOff {
        match end {
            ReadEnd::Failed => CutOff::ReadFailed,
            // No memory holds a line with more bytes than can be counted.
            ReadEnd::TooLong | ReadEnd::NoMemory => CutOff::NoMemory,
        }
    }
}

/// The status of what was cut off.
#[tactic(auto, unfolding(crate::specs::Statuses::status_of))]
pub fn status_of(cut: CutOff) -> Status
    ensures { result ≡ status_of cut }
{
    match cut {
        CutOff::ReadFailed => Status::ReadFailed,
        CutOff::WriteFailed => Status::WriteFailed,
        CutOff::NoMemory => Status::OutOfMemory,
    }
}
