//! The records that stand in a core.
ghost use Rattle.std.specs.Prelude.{◌≡◌, ◌*◌, ◌<◌, ◌≤◌, length, Ok, Err, IfOk, IfErr, Some, None};
ghost use Rattle.std.specs.List.{All};
ghost use Rattle.pr_num.specs.Limits.{signal_count};
ghost use Rattle.pr_num.specs.Records.{first_out_of_range, psinfo_ranges, lwpstatus_ranges, sigact_ranges, map_entry_ranges, fd_entry_ranges};
ghost use Rattle.pr_num.specs.Words.{IsWord};
ghost use Rattle.pr_rec.specs.Fields.{front_words};
ghost use Rattle.pr_rec.specs.InRange.{IsPsinfo, IsLwpStatus, IsMapEntry};
ghost use Rattle.pr_rec.specs.Reading.{record_read};
ghost use Rattle.pr_rec.specs.RecordWords.{psinfo_words_of, lwpstatus_words_of, map_entry_words_of};
ghost use Rattle.pr_core.specs.CoreRanges.{IsRecord, IsSigact};

use pr_codec::{WORD, read_words};
use pr_num::limits::{DESCRIPTOR_LIMIT, SIGNAL_COUNT};
use pr_rec::{LwpStatus, MapEntry, Psinfo, RecFault, SIGACT_SIZE};

/// A record of a core.
pub(crate) trait Entry {
    ghost use Rattle.std.specs.Prelude.{ℕ, List};
    ghost use Rattle.pr_num.specs.Records.{Range};

    // What each of its words may be.
    ghost ranges: { List Range };

    ghost words: { Self → List ℕ };

    // That its fields are in their ranges.
    ghost is_ranged: { Self → Type 0 };

    /// How many bytes it has.
    fn size() -> usize
        ensures value { result ≡ 8 * length ranges }
        ensures some { 0 < result };

    /// The record with which bytes begin.
    fn read(bytes: &[u8]) -> Result<Self, RecFault>
    where
        Self: Sized,
        ensures ok { IfOk result (λ r. record_read ranges bytes.now ≡ Ok (words r)) }
        ensures err { IfErr result (λ fault. record_read ranges bytes.now ≡ Err fault) }
        ensures ranged { IfOk result is_ranged };
}

impl Entry for Psinfo {
    ghost ranges = { psinfo_ranges };

    ghost words = { psinfo_words_of };

    ghost is_ranged = { IsPsinfo };

    fn size() -> usize {
        96
    }

    fn read(bytes: &[u8]) -> Result<Psinfo, RecFault> {
        Psinfo::decode(bytes)
    }
}

impl Entry for LwpStatus {
    ghost ranges = { lwpstatus_ranges };

    ghost words = { lwpstatus_words_of };

    ghost is_ranged = { IsLwpStatus };

    fn size() -> usize {
        LwpStatus::SIZE
    }

    fn read(bytes: &[u8]) -> Result<LwpStatus, RecFault> {
        LwpStatus::decode(bytes)
    }
}

impl Entry for MapEntry {
    ghost ranges = { map_entry_ranges };

    ghost words = { map_entry_words_of };

    ghost is_ranged = { IsMapEntry };

    fn size() -> usize {
        64
    }

    fn read(bytes: &[u8]) -> Result<MapEntry, RecFault> {
        MapEntry::decode(bytes)
    }
}

/// The first words of bytes, as many as `words` has places.
fn fill(bytes: &[u8], words: &mut [u64])
    requires { 8 * length words.old ≤ length bytes.now }
    ensures { words.new ≡ front_words (length words.old) bytes.now }
{
    let size = WORD * words.len();
    read_words(&bytes[..size], words);
}

/// Dispositions: any words.
impl Entry for [u64; SIGNAL_COUNT] {
    ghost ranges = { sigact_ranges };

    ghost words = { λ dispositions. dispositions };

    ghost is_ranged = { IsSigact };

    fn size() -> usize {
        SIGACT_SIZE
    }

    fn read(bytes: &[u8]) -> Result<[u64; SIGNAL_COUNT], RecFault> {
        let mut words = [0; SIGNAL_COUNT];
        if bytes.len() < SIGACT_SIZE {
            return Err(RecFault::Short);
        }
        fill(bytes, &mut words);
        Ok(words)
    }
}

/// The place of the first word that a descriptor's record cannot have.
fn first_bad(words: &[u64; 8]) -> Option<usize>
    ensures { result ≡ first_out_of_range fd_entry_ranges words.now }
{
    let [descriptor, kind, access, ..] = *words;
    if descriptor >= DESCRIPTOR_LIMIT as u64 {
        Some(0)
    } else if kind < 1 || kind > 3 {
        Some(1)
    } else if access > 2 {
        Some(2)
    } else {
        None
    }
}

/// A descriptor, by the words of its record.
impl Entry for [u64; 8] {
    ghost ranges = { fd_entry_ranges };

    ghost words = { λ words. words };

    ghost is_ranged = { IsRecord fd_entry_ranges };

    fn size() -> usize {
        64
    }

    fn read(bytes: &[u8]) -> Result<[u64; 8], RecFault> {
        let mut words = [0; 8];
        if bytes.len() < 64 {
            return Err(RecFault::Short);
        }
        fill(bytes, &mut words);
        match first_bad(&words) {
            None => Ok(words),
            Some(place) => Err(RecFault::BadField { at: WORD * place }),
        }
    }
}
