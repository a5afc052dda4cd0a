//! The sections of a core that are records, each read with the place behind it.
ghost use Rattle.std.specs.Prelude.{◌≡◌, ◌≤◌, length, map, Ok, Err, IfOk, IfErr};
ghost use Rattle.std.specs.List.{All};
ghost use Rattle.pr_core.specs.CoreReading.{one_record, any_records, counted_records, IsFaultOf};

use crate::CoreFault;
use crate::entries::Entry;
use crate::records::{record_at, records_at};
use crate::sections::{HEADING, Sizes, section_size};
use crate::words::exact_word;
use pr_codec::WORD;
use std::alloc::Global;

/// A section that is one record.
#[tactic(auto, unfolding(crate::specs::CoreReading::one_record))]
pub(crate) fn one_record<R: Entry + Drop>(
    bytes: &[u8],
    kind: u64,
    at: usize,
) -> Result<(R, usize), CoreFault>
    ensures ok { IfOk result (λ read. one_record kind R.ranges bytes.now at
        ≡ Ok (record { found = R.words read.0; next = read.1 })) }
    ensures err { IfErr result (λ fault. one_record kind R.ranges bytes.now at ≡ Err fault) }
    ensures ranged { IfOk result (λ read. R.is_ranged read.0) }
{
    let size = section_size(bytes, kind, Sizes::Exactly(R::size() as u64), at)?;
    let begin = at + HEADING;
    let record = record_at::<R>(bytes, begin)?;
    Ok((record, begin + size))
}

/// A section of any number of records one after the other.
#[tactic(auto, unfolding(crate::specs::CoreReading::any_records))]
pub(crate) fn any_records<R: Entry + Drop>(
    alloc: Global,
    bytes: &[u8],
    kind: u64,
    at: usize,
) -> Result<(Vec<R>, usize), CoreFault>
    ensures ok { IfOk result (λ read. any_records kind R.ranges bytes.now at
        ≡ Ok (record { found = map R.words read.0.items; next = read.1 })) }
    ensures err { IfErr result (IsFaultOf (any_records kind R.ranges bytes.now at)) }
    ensures ranged { IfOk result (λ read. All R.is_ranged read.0.items) }
{
    let record = R::size();
    let size = section_size(bytes, kind, Sizes::Records(record), at)?;
    let begin = at + HEADING;
    let records = records_at::<R>(alloc, bytes, size / record, begin)?;
    Ok((records, begin + size))
}

/// A section of records after their number.
#[tactic(auto, unfolding(crate::specs::CoreReading::counted_records))]
pub(crate) fn counted_records<R: Entry + Drop>(
    alloc: Global,
    bytes: &[u8],
    kind: u64,
    at: usize,
) -> Result<(Vec<R>, usize), CoreFault>
    ensures ok { IfOk result (λ read. counted_records kind R.ranges bytes.now at
        ≡ Ok (record { found = map R.words read.0.items; next = read.1 })) }
    ensures err { IfErr result (IsFaultOf (counted_records kind R.ranges bytes.now at)) }
    ensures ranged { IfOk result (λ read. All R.is_ranged read.0.items) }
{
    let record = R::size();
    let size = section_size(bytes, kind, Sizes::Counted(record), at)?;
    let begin = at + HEADING;
    let count = exact_word(bytes, ((size - WORD) / record) as u64, begin)?;
    let records = records_at::<R>(alloc, bytes, count as usize, begin + WORD)?;
    Ok((records, begin + size))
}
