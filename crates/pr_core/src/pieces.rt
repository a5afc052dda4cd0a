//! The memory of a core.
ghost use Rattle.std.specs.Prelude.{◌≡◌, ◌≤◌, length, map, Ok, IfOk, IfErr};
ghost use Rattle.pr_rec.specs.RecordWords.{map_entry_words_of};
ghost use Rattle.pr_core.specs.CoreRanges.{mapping_size};
ghost use Rattle.pr_core.specs.CoreReading.{pieces, IsFaultOf};

use crate::CoreFault;
use crate::sections::{HEADING, MEMORY, Sizes, section_size};
use pr_num::{Bytes, NoMemory, Table};
use pr_rec::MapEntry;
use std::alloc::Global;

/// The same bytes again.
fn copied(alloc: Global, bytes: &[u8]) -> Result<Bytes, NoMemory>
    ensures { IfOk result (λ copy. copy ≡ bytes.now) }
{
    Ok(Bytes::from_vec(Vec::from_slice(alloc, bytes)?))
}

/// The memory of mappings, a section each from a place on, and the place behind them.
pub(crate) fn pieces(
    alloc: Global,
    bytes: &[u8],
    maps: &[MapEntry],
    begin: usize,
) -> Result<(Vec<Bytes>, usize), CoreFault>
    ensures ok { let sizes = map mapping_size (map map_entry_words_of maps.now) in
        IfOk result (λ read. pieces sizes bytes.now begin ≡ Ok (record { found = read.0.items; next = read.1 })) }
    ensures err { let sizes = map mapping_size (map map_entry_words_of maps.now) in
        IfErr result (IsFaultOf (pieces sizes bytes.now begin)) }
{
    let mut memory = Table::new(alloc);
    let mut at = begin;
    for mapping in maps {
        let size = section_size(bytes, MEMORY, Sizes::Exactly(mapping.size), at)?;
        let next = at + HEADING + size;
        memory.push(copied(alloc, &bytes[at + HEADING..next])?)?;
        at = next;
    }
    Ok((memory.into_vec(), at))
}
