//! The record of a process's open descriptors, filled from the state.
ghost use Rattle.std.specs.Prelude.{◌≡◌, [], IfOk, unwrap_or};
ghost use Rattle.pr_num.specs.Records.{fd_entry_ranges, name_field};
ghost use Rattle.pr_model.specs.Records.{fd_entries_from, fd_entry_of};
ghost use Rattle.pr_parts.specs.FileCalls.{name_of};
ghost use Rattle.pr_rec.specs.RecordBytes.{fds_bytes};
ghost use Rattle.pr_rec.specs.RecordWords.{fd_entry_words_of};
ghost use Rattle.pr_view.specs.Entries.{HasEntries};

use pr_file::{Fds, Files};
use pr_num::limits::DESCRIPTOR_LIMIT;
use pr_num::{Bytes, FdKind, NoMemory, OpenFile, Target};
use pr_rec::{Descriptor, FdEntry, name_field, write_fds};
use std::alloc::Global;

/// The name of what a descriptor stands for; a pipe has none.
fn name_of(files: &Files, target: Target) -> [u8; 32]
    ensures { result ≡ name_field (unwrap_or (name_of files.now target) []) }
{
    match files.name(target) {
        None => [0; 32],
        Some(name) => name_field(&name),
    }
}

#[tactic(auto, unfolding(pr_model::specs::Records::fd_entry_of))]
fn fd_entry_of(files: &Files, descriptor: Descriptor, file: OpenFile) -> FdEntry
    ensures { result ≡ fd_entry_of files.now descriptor file }
{
    FdEntry {
        descriptor,
        kind: FdKind::of(file.target),
        access: file.access,
        offset: file.offset,
        name: name_of(files, file.target),
    }
}

/// The open descriptors of a process, by their numbers.
#[tactic(auto, using(crate::proofs::DescriptorLemmas::descriptor_laws))]
fn fds_of(alloc: Global, files: &Files, fds: &Fds) -> Result<Vec<FdEntry>, NoMemory>
    ensures { IfOk result (λ entries. entries.items ≡ fd_entries_from files.now 0 fds.now) }
{
    fds.are_all();
    let mut entries = Vec::new(alloc);
    for place in 0..DESCRIPTOR_LIMIT {
        if let Some(file) = files.opened(fds, place as u64) {
            entries.push(fd_entry_of(files, Descriptor::at(place), file))?;
        }
    }
    Ok(entries)
}

/// The bytes of the open descriptors of a process. They decode to these.
pub fn fds_bytes(alloc: Global, files: &Files, fds: &Fds) -> Result<Bytes, NoMemory>
    ensures bytes { IfOk result (λ bytes. bytes ≡ fds_bytes (fd_entries_from files.now 0 fds.now)) }
    ensures decodes { IfOk result
        (λ bytes. HasEntries fd_entry_ranges fd_entry_words_of (fd_entries_from files.now 0 fds.now) bytes) }
{
    let entries = fds_of(alloc, files, fds)?;
    write_fds(alloc, &entries)
}
