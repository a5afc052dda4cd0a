//! The records of the process file system that are lists.
ghost use Rattle.std.specs.Prelude.{◌≡◌, ◌++◌, ◌<◌, map, IfOk, OnOk};
ghost use Rattle.std.specs.List.{All};
ghost use Rattle.pr_num.specs.Records.{EncodesRecord, entries_words, sigact_ranges};
ghost use Rattle.pr_num.specs.Words.{words_bytes};
ghost use Rattle.pr_rec.specs.InRange.{IsInfo, IsLwpStatus, IsMapEntry, IsWatchEntry, IsFdEntry, IsListEntry};
ghost use Rattle.pr_rec.specs.RecordBytes.{lstatus_bytes, map_bytes, watch_bytes, fds_bytes, list_bytes, sigact_bytes};

use crate::columns::put_record;
use crate::entries::{Entry, append_words};
use crate::{FdEntry, ListEntry, LwpStatus, MapEntry, WatchEntry};
use pr_codec::WORD;
use pr_num::limits::SIGNAL_COUNT;
use pr_num::{Bytes, NoMemory};
use std::alloc::Global;

/// The record of all lwps of a process: how many there are, and the status of each (proc(4), "lstatus").
#[tactic(auto, unfolding(crate::specs::RecordBytes::lstatus_bytes))]
pub fn write_lstatus(alloc: Global, lwps: &[LwpStatus]) -> Result<Bytes, NoMemory>
    ensures bytes { IfOk result (λ bytes. bytes ≡ lstatus_bytes lwps.now) }
    ensures ranged { IfOk result (λ _. All (λ l. IsInfo l.info → IsLwpStatus l) lwps.now) }
{
    let mut out = Vec::new(alloc);
    append_words(&mut out, &[lwps.len() as u64])?;
    append_entries(&mut out, lwps)?;
    Ok(Bytes::from_vec(out))
}

/// The record of the mappings of a process (proc(4), "map").
#[tactic(auto, unfolding(crate::specs::RecordBytes::map_bytes))]
pub fn write_map(alloc: Global, mappings: &[MapEntry]) -> Result<Bytes, NoMemory>
    ensures bytes { IfOk result (λ bytes. bytes ≡ map_bytes mappings.now) }
    ensures ranged { IfOk result (λ _. All IsMapEntry mappings.now) }
{
    let mut out = Vec::new(alloc);
    append_entries(&mut out, mappings)?;
    Ok(Bytes::from_vec(out))
}

/// The record of the watched areas of a process (proc(4), "watch").
#[tactic(auto, unfolding(crate::specs::RecordBytes::watch_bytes))]
pub fn write_watch(alloc: Global, areas: &[WatchEntry]) -> Result<Bytes, NoMemory>
    ensures bytes { IfOk result (λ bytes. bytes ≡ watch_bytes areas.now) }
    ensures ranged { IfOk result (λ _. All IsWatchEntry areas.now) }
{
    let mut out = Vec::new(alloc);
    append_entries(&mut out, areas)?;
    Ok(Bytes::from_vec(out))
}

/// The record of the open descriptors of a process.
#[tactic(auto, unfolding(crate::specs::RecordBytes::fds_bytes))]
pub fn write_fds(alloc: Global, descriptors: &[FdEntry]) -> Result<Bytes, NoMemory>
    ensures bytes { IfOk result (λ bytes. bytes ≡ fds_bytes descriptors.now) }
    ensures ranged { IfOk result (λ _. All IsFdEntry descriptors.now) }
{
    let mut out = Vec::new(alloc);
    append_entries(&mut out, descriptors)?;
    Ok(Bytes::from_vec(out))
}

/// The list of processes.
#[tactic(auto, unfolding(crate::specs::RecordBytes::list_bytes))]
pub fn write_list(alloc: Global, processes: &[ListEntry]) -> Result<Bytes, NoMemory>
    ensures bytes { IfOk result (λ bytes. bytes ≡ list_bytes processes.now) }
    ensures ranged { IfOk result (λ _. All IsListEntry processes.now) }
{
    let mut out = Vec::new(alloc);
    append_entries(&mut out, processes)?;
    Ok(Bytes::from_vec(out))
}

/// How many bytes the record of a process's dispositions has: a word for each signal.
pub const SIGACT_SIZE: usize = WORD * SIGNAL_COUNT;

/// The dispositions of all signals in their order: 0 default, 1 ignored, else the address of a handler (proc(4),
/// "sigact"). Takes no memory.
#[tactic(auto, unfolding(crate::specs::RecordBytes::sigact_bytes))]
pub fn encode_sigact(dispositions: &[u64; SIGNAL_COUNT]) -> [u8; SIGACT_SIZE]
    ensures bytes { result ≡ sigact_bytes dispositions.now }
    ensures encoded { EncodesRecord sigact_ranges result dispositions.now }
{
    let mut bytes = [0; SIGACT_SIZE];
    put_record(&mut bytes, dispositions);
    bytes
}

fn append_entries<E: Entry>(out: &mut Vec<u8>, entries: &[E]) -> Result<(), NoMemory>
    ensures bytes { OnOk result (out.new.items ≡ out.old.items ++ words_bytes (entries_words (map E.words entries.now))) }
    ensures ranged { OnOk result (All E.is_ranged entries.now) }
{
    for entry in entries {
        entry.append(out)?;
    }
    Ok(())
}
