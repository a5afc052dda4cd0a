ghost use Rattle.std.specs.Prelude.{◌≡◌, ◌++◌, Err, IfOk, IfErr, replicate};
ghost use Rattle.pr_num.specs.Records.{first_lwpstatus_ranges};
ghost use Rattle.pr_rec.specs.Reading.{record_read, IsUpgrade};

use crate::columns::{Column, read_record};
use crate::{LwpStatus, RecFault};

/// What each word of an lwp's status might hold before signals had information (version 1): signals up to 31, and
/// system calls up to 29. It stays so, whatever the tables of today have.
const FIRST_COLUMNS: [Column; 30] = [
    Column::LWP_FLAGS,
    Column::ID,
    Column::REASON,
    Column::Below(32),
    Column::Below(32),
    Column::FAULT,
    Column::Any,
    Column::Below(30),
    Column::Any,
    Column::Any,
    Column::Any,
    Column::Any,
    Column::Any,
    Column::Any,
    Column::Any,
    Column::ErrnoOrNone,
    Column::Below(1 << 31),
    Column::Below(1 << 31),
    Column::Any,
    Column::Any,
    Column::Any,
    Column::Any,
    Column::Any,
    Column::Any,
    Column::Any,
    Column::Any,
    Column::Any,
    Column::Any,
    Column::Any,
    Column::DISPOSITION,
];

/// An lwp's status as it was before signals had information (version 1), as one of today: its words stay, and the
/// information is zeros. Refuses with `BadField` exactly what that version refuses. Takes no memory.
pub fn upgrade(old: &[u8; 240]) -> Result<[u8; LwpStatus::SIZE], RecFault>
    ensures ok { IfOk result (λ new. IsUpgrade old.now new) }
    ensures bytes { IfOk result (λ new. new ≡ old.now ++ replicate 24 0) }
    ensures err { IfErr result (λ fault. record_read first_lwpstatus_ranges old.now ≡ Err fault) }
{
    let mut words = [0; 30];
    read_record(&FIRST_COLUMNS, old, &mut words)?;
    let mut new = [0; LwpStatus::SIZE];
    new[..240].copy_from_slice(old);
    Ok(new)
}
