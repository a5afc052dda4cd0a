//! The reading of an input.
ghost use Rattle.std.specs.Prelude.{◌≡◌, ◌≢◌, ◌≤◌, length, IfOk, IfSome, Err};
ghost use Rattle.pr_ends.specs.Inputs.{Took};
ghost use Rattle.pr_io.specs.Faults.{Rose};
ghost use Rattle.pr_io.specs.Reading.{Came, CameWithin};

use pr_io::{ReadEnd, Source, read_all};
use pr_num::{Bytes, NoMemory};
use std::alloc::Global;

/// Why an input was not read, or not answered.
#[derive(Clone, Copy, Debug, PartialEq, Eq)]
pub enum Unread {
    /// A read failed.
    Failed,
    NoMemory,
}

impl From<NoMemory> for Unread {
    ghost use Rattle.pr_ends.specs.declared.inputs.Unread.TheVariants as variants;

    ghost from_gives = { λ _ e. e ≡ variants.NoMemory };

    fn from(_error: NoMemory) -> Unread {
        Unread::NoMemory
    }
}

/// Reads an input to its end; `None` where it has more bytes than the limit.
pub fn take_input<S: Source>(
    alloc: Global,
    source: &mut S,
    limit: usize,
) -> Result<Option<Bytes>, Unread>
    ensures took { IfOk result (λ input. Took limit (S.left source.old) (S.left source.new) input) }
    ensures small { IfOk result (λ input. IfSome input (λ bytes. length bytes ≤ limit)) }
    ensures failed { result ≡ Err Unread.Failed → Rose (S.faults source.old) (S.faults source.new) }
    ensures failed_within { result ≡ Err Unread.Failed → CameWithin limit (S.left source.old) (S.left source.new) }
    ensures out_of_memory { result ≡ Err Unread.NoMemory → Came (S.left source.old) (S.left source.new) }
    ensures no_fault { result ≢ Err Unread.Failed → S.faults source.new ≡ S.faults source.old }
{
    match read_all(alloc, source, limit) {
        Ok(bytes) => Ok(Some(bytes)),
        Err(ReadEnd::TooLong) => Ok(None),
        Err(ReadEnd::Failed) => Err(Unread::Failed),
        Err(ReadEnd::NoMemory) => Err(Unread::NoMemory),
    }
}
