//! Records one after the other.
ghost use Rattle.std.specs.Prelude.{◌≡◌, ◌*◌, ◌/◌, ◌<◌, ◌≤◌, drop, take, length, map, option_map, IfOk, IfSome};
ghost use Rattle.std.specs.Result.{result_ok};
ghost use Rattle.pr_num.specs.Records.{lwpstatus_ranges, map_entry_ranges, fd_entry_ranges, list_entry_ranges};
ghost use Rattle.pr_rec.specs.Reading.{record_read};
ghost use Rattle.pr_rec.specs.RecordWords.{lwpstatus_words_of, map_entry_words_of, fd_entry_words_of, list_entry_words_of};
ghost use Rattle.pr_tools.specs.Entries.{entries_from, entries_in, counts_lwps, lwp_places, lwps_in};

use crate::decoding::{read_fd_entry, read_list_entry};
use pr_codec::{WORD, word};
use pr_num::NoMemory;
use pr_rec::{FdEntry, ListEntry, LwpStatus, MapEntry};
use pr_text::behind;
use std::alloc::Global;

/// A record of which several stand one after the other.
pub trait Record {
    ghost use Rattle.std.specs.Prelude.{ℕ, List};
    ghost use Rattle.pr_num.specs.Records.{Range};

    // What each of its words may be.
    ghost ranges: { List Range };

    ghost words: { Self → List ℕ };

    /// How many bytes it has.
    fn size() -> usize
        ensures value { result ≡ 8 * length ranges }
        ensures some { 0 < result };

    /// The record with which bytes begin, if they begin with one.
    fn read(bytes: &[u8]) -> Option<Self>
    where
        Self: Sized,
        ensures { option_map words result ≡ result_ok (record_read ranges bytes.now) };
}

impl Record for LwpStatus {
    ghost ranges = { lwpstatus_ranges };

    ghost words = { lwpstatus_words_of };

    fn size() -> usize {
        LwpStatus::SIZE
    }

    fn read(bytes: &[u8]) -> Option<LwpStatus> {
        LwpStatus::decode(bytes).ok()
    }
}

impl Record for MapEntry {
    ghost ranges = { map_entry_ranges };

    ghost words = { map_entry_words_of };

    fn size() -> usize {
        64
    }

    fn read(bytes: &[u8]) -> Option<MapEntry> {
        MapEntry::decode(bytes).ok()
    }
}

impl Record for FdEntry {
    ghost ranges = { fd_entry_ranges };

    ghost words = { fd_entry_words_of };

    fn size() -> usize {
        64
    }

    fn read(bytes: &[u8]) -> Option<FdEntry> {
        read_fd_entry(bytes)
    }
}

impl Record for ListEntry {
    ghost ranges = { list_entry_ranges };

    ghost words = { list_entry_words_of };

    fn size() -> usize {
        48
    }

    fn read(bytes: &[u8]) -> Option<ListEntry> {
        read_list_entry(bytes)
    }
}

/// The first so many records in bytes; `None` exactly where one of them is malformed.
pub fn entries_from<R: Record + Drop>(
    alloc: Global,
    bytes: &[u8],
    count: usize,
) -> Result<Option<Vec<R>>, NoMemory>
    ensures value { IfOk result
        (λ read. option_map (λ entries. map R.words entries.items) read ≡ entries_from R.ranges count bytes.now) }
    ensures count { IfOk result (λ read. IfSome read (λ entries. length entries.items ≡ count)) }
{
    let mut entries = Vec::new(alloc);
    let mut rest = bytes;
    let mut left = count;
    while left > 0 {
        match R::read(rest) {
            None => return Ok(None),
            Some(entry) => entries.push(entry)?,
        }
        rest = behind(rest, R::size());
        left -= 1;
    }
    Ok(Some(entries))
}

/// The records in bytes; `None` exactly where they are no whole records, or one is malformed.
#[tactic(auto, unfolding(crate::specs::Entries::entries_in))]
pub fn entries_in<R: Record + Drop>(alloc: Global, bytes: &[u8]) -> Result<Option<Vec<R>>, NoMemory>
    ensures value { IfOk result (λ read. option_map (λ entries. map R.words entries.items) read ≡ entries_in R.ranges bytes.now) }
    ensures count { IfOk result
        (λ read. IfSome read (λ entries. length entries.items ≡ length bytes.now / (8 * length R.ranges))) }
{
    let size = R::size();
    if bytes.len() % size != 0 {
        return Ok(None);
    }
    entries_from(alloc, bytes, bytes.len() / size)
}

/// How many lwps have room in the status of all lwps, after their number.
pub fn lwp_places(bytes: &[u8]) -> usize
    ensures { result ≡ lwp_places bytes.now }
{
    bytes.len().saturating_sub(WORD) / LwpStatus::SIZE
}

/// Whether the status of all lwps has as many as it says.
#[tactic(auto, unfolding(crate::specs::Entries::counts_lwps))]
pub fn counts_lwps(bytes: &[u8]) -> bool
    ensures { result ≡ counts_lwps bytes.now }
{
    match word(bytes, 0) {
        Err(_) => false,
        Ok(count) => (bytes.len() - WORD) % LwpStatus::SIZE == 0
            && count == lwp_places(bytes) as u64,
    }
}

/// The status of each lwp, of the bytes of `lstatus` (proc(4)): their number, and as many records one after the other.
/// `None` exactly where the bytes are not so many records, or one of them has a field out of its range.
#[tactic(auto, unfolding(crate::specs::Entries::lwps_in))]
pub fn lwps_in(alloc: Global, bytes: &[u8]) -> Result<Option<Vec<LwpStatus>>, NoMemory>
    ensures { IfOk result (λ read. option_map (λ lwps. map lwpstatus_words_of lwps.items) read ≡ lwps_in bytes.now) }
{
    if !counts_lwps(bytes) {
        return Ok(None);
    }
    entries_from(alloc, behind(bytes, WORD), lwp_places(bytes))
}
