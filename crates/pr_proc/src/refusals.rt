ghost use Rattle.std.specs.Prelude.{◌≡◌, ◌↔◌, IfOk, IsErr, Option, Some};
ghost use Rattle.pr_num.specs.declared.errnos.Errno.{Errno as AnyErrno};
ghost use Rattle.pr_proc.specs.Refusals.{SaysOf};

use pr_num::{Errno, NoMemory};
use thiserror::Error;

/// Why no process is made, or no other program run, with the errno that it stands for (Intro(2)).
#[derive(Clone, Copy, Debug, PartialEq, Eq, Error)]
pub enum ProcNo {
    /// As many processes were made as can be (`EAGAIN`).
    #[error("as many processes were made as can be")]
    Again,
    /// All processes together would map more than 64 MiB (`ENOMEM`).
    #[error("all processes together would map too much")]
    NoSpace,
    /// Memory ran out.
    #[error("out of memory")]
    NoMemory,
}

impl From<NoMemory> for ProcNo {
    ghost use Rattle.std.specs.Prelude.{◌≡◌};
    ghost use Rattle.pr_proc.specs.declared.refusals.ProcNo.TheVariants as variants;

    ghost from_gives = { λ _ e. e ≡ variants.NoMemory };

    fn from(_error: NoMemory) -> ProcNo {
        ProcNo::NoMemory
    }
}

/// The errno of a refusal; memory that ran out has none.
pub fn errno_of(reason: ProcNo) -> Result<Errno, NoMemory>
    ensures ok { (refusal : Option AnyErrno) → SaysOf reason refusal → IfOk result (λ error. refusal ≡ Some error) }
    ensures memory { IsErr result ↔ (reason ≡ ProcNo.NoMemory) }
{
    match reason {
        ProcNo::Again => Ok(Errno::Again),
        ProcNo::NoSpace => Ok(Errno::Nomem),
        ProcNo::NoMemory => Err(NoMemory),
    }
}
