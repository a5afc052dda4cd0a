//! The records that are lists, filled from the state (proc(4), "lstatus", "map", "watch"; and the list of processes).
ghost use Rattle.std.specs.Prelude.{◌≡◌, ◌++◌, All, IfOk, OnOk, drop};
ghost use Rattle.pr_model.specs.Records.{list_entry_of, list_of, lstatus_of, map_entry_of, map_of, mapping_name, watch_entry_of, watch_of};
ghost use Rattle.pr_num.specs.Records.{list_entry_ranges, lwpstatus_ranges, map_entry_ranges, name_field, watch_entry_ranges};
ghost use Rattle.pr_view.specs.Entries.{HasEntries};
ghost use Rattle.pr_view.specs.Lists.{listed};
ghost use Rattle.pr_rec.specs.InRange.{IsInfo};
ghost use Rattle.pr_rec.specs.RecordBytes.{list_bytes, lstatus_bytes, map_bytes, watch_bytes};
ghost use Rattle.pr_rec.specs.RecordWords.{list_entry_words_of, lwpstatus_words_of, map_entry_words_of, watch_entry_words_of};

use crate::statuses::lwpstatus_of;
use pr_mem::Mapping;
use pr_num::{Area, Bytes, MappingKind, Name, NoMemory};
use pr_proc::{Proc, Sys, seen};
use pr_rec::{
    ListEntry, LwpStatus, MapEntry, WatchEntry, name_field, write_list, write_lstatus, write_map,
    write_watch,
};
use std::alloc::Global;

/// The status of each lwp of a process, by rising id.
#[tactic(auto, using(crate::proofs::ListLemmas::list_laws), unfolding(pr_model::specs::Records::lstatus_of))]
fn lstatus_of(alloc: Global, process: &Proc) -> Result<Vec<LwpStatus>, NoMemory>
    ensures { IfOk result (λ lwps. lwps.items ≡ lstatus_of process.now) }
{
    let mut statuses = Vec::new(alloc);
    for place in 0..process.lwps.len() {
        let (id, lwp) = process.lwps.at(place);
        statuses.push(lwpstatus_of(process, id, lwp))?;
    }
    Ok(statuses)
}

/// The bytes of the statuses of all lwps of a process, after their number. They decode to these, where the information
/// of each current signal is one that a record can hold.
pub fn lstatus_bytes(alloc: Global, process: &Proc) -> Result<Bytes, NoMemory>
    ensures bytes { IfOk result (λ bytes. bytes ≡ lstatus_bytes (lstatus_of process.now)) }
    ensures decodes { IfOk result
        (λ bytes. All (λ l. IsInfo l.info) (lstatus_of process.now)
        → HasEntries lwpstatus_ranges lwpstatus_words_of (lstatus_of process.now) (drop 8 bytes)) }
{
    let statuses = lstatus_of(alloc, process)?;
    write_lstatus(alloc, &statuses)
}

/// The name of a mapping: text and data have that of the program.
fn mapping_name(program: &Name, kind: MappingKind) -> [u8; 32]
    ensures { result ≡ name_field (mapping_name program.now kind) }
{
    match kind {
        MappingKind::Text | MappingKind::Data => name_field(program),
        MappingKind::Heap | MappingKind::Stack | MappingKind::Mapped => [0; 32],
    }
}

#[tactic(auto, unfolding(pr_model::specs::Records::map_entry_of))]
fn map_entry_of(program: &Name, mapping: &Mapping) -> MapEntry
    ensures { result ≡ map_entry_of program.now mapping.now }
{
    MapEntry {
        at: mapping.at(),
        size: mapping.size(),
        prot: mapping.prot(),
        kind: mapping.kind(),
        name: mapping_name(program, mapping.kind()),
    }
}

/// The mappings of a process.
#[tactic(auto, unfolding(pr_model::specs::Records::map_of))]
fn map_of(alloc: Global, sys: &Sys, process: &Proc) -> Result<Vec<MapEntry>, NoMemory>
    ensures { IfOk result (λ mappings. mappings.items ≡ map_of sys.now process.now) }
{
    let mut entries = Vec::new(alloc);
    for mapping in seen(sys, process).mappings() {
        entries.push(map_entry_of(&process.program, mapping))?;
    }
    Ok(entries)
}

/// The bytes of the mappings of a process. They decode to these.
pub fn map_bytes(alloc: Global, sys: &Sys, process: &Proc) -> Result<Bytes, NoMemory>
    ensures bytes { IfOk result (λ bytes. bytes ≡ map_bytes (map_of sys.now process.now)) }
    ensures decodes { IfOk result (λ bytes. HasEntries map_entry_ranges map_entry_words_of (map_of sys.now process.now) bytes) }
{
    let entries = map_of(alloc, sys, process)?;
    write_map(alloc, &entries)
}

#[tactic(auto, unfolding(pr_model::specs::Records::watch_entry_of))]
fn watch_entry_of(area: &Area) -> WatchEntry
    ensures { result ≡ watch_entry_of area.now }
{
    WatchEntry {
        at: area.at,
        size: area.size,
        flags: area.flags,
    }
}

/// The watched areas of a process.
#[tactic(auto, unfolding(pr_model::specs::Records::watch_of))]
fn watch_of(alloc: Global, process: &Proc) -> Result<Vec<WatchEntry>, NoMemory>
    ensures { IfOk result (λ areas. areas.items ≡ watch_of process.now) }
{
    let mut entries = Vec::new(alloc);
    for area in process.control.areas.as_slice() {
        entries.push(watch_entry_of(area))?;
    }
    Ok(entries)
}

/// The bytes of the watched areas of a process. They decode to these.
pub fn watch_bytes(alloc: Global, process: &Proc) -> Result<Bytes, NoMemory>
    ensures bytes { IfOk result (λ bytes. bytes ≡ watch_bytes (watch_of process.now)) }
    ensures decodes { IfOk result (λ bytes. HasEntries watch_entry_ranges watch_entry_words_of (watch_of process.now) bytes) }
{
    let entries = watch_of(alloc, process)?;
    write_watch(alloc, &entries)
}

#[tactic(auto, unfolding(pr_model::specs::Records::list_entry_of))]
fn list_entry_of(pid: u32, process: &Proc) -> ListEntry
    ensures { result ≡ list_entry_of pid process.now }
{
    ListEntry {
        id: pid,
        parent: process.parent,
        program: name_field(&process.program),
    }
}

/// Adds a process to the list of them; process 0 is not listed.
#[tactic(auto, using(crate::proofs::ListLemmas::adding_laws), unfolding(crate::specs::Lists::listed))]
fn add_process(entries: &mut Vec<ListEntry>, pid: u32, process: &Proc) -> Result<(), NoMemory>
    ensures { OnOk result (entries.new.items ≡ entries.old.items ++ listed pid process.now) }
{
    if pid == 0 {
        return Ok(());
    }
    entries.push(list_entry_of(pid, process))?;
    Ok(())
}

/// The processes that were not reaped, by rising id, but for process 0.
#[tactic(auto, using(crate::proofs::ListLemmas::list_laws), unfolding(pr_model::specs::Records::list_of))]
fn list_of(alloc: Global, sys: &Sys) -> Result<Vec<ListEntry>, NoMemory>
    ensures { IfOk result (λ processes. processes.items ≡ list_of sys.now) }
{
    let mut entries = Vec::new(alloc);
    let mut low = 0;
    while let Some((pid, process)) = sys.processes.next_from(low) {
        add_process(&mut entries, pid, process)?;
        low = pid as u64 + 1;
    }
    Ok(entries)
}

/// The bytes of the list of processes. They decode to it.
pub fn list_bytes(alloc: Global, sys: &Sys) -> Result<Bytes, NoMemory>
    ensures bytes { IfOk result (λ bytes. bytes ≡ list_bytes (list_of sys.now)) }
    ensures decodes { IfOk result (λ bytes. HasEntries list_entry_ranges list_entry_words_of (list_of sys.now) bytes) }
{
    let entries = list_of(alloc, sys)?;
    write_list(alloc, &entries)
}
