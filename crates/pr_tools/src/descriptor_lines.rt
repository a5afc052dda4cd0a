//! The text of pfiles.
ghost use Rattle.std.specs.Prelude.{◌≡◌, ◌++◌, map, OnOk};
ghost use Rattle.std.specs.List.{flat_map};
ghost use Rattle.pr_rec.specs.RecordWords.{fd_entry_words_of};
ghost use Rattle.pr_tools.specs.Pfiles.{file_text, target_text, descriptor_line, pfiles_text};

use crate::entries::entries_in;
use crate::names::name_in;
use crate::texts::{end_line, push_header};
use pr_num::{FdKind, NoMemory};
use pr_rec::FdEntry;
use pr_text::Text;
use std::alloc::Global;

/// A file that is open: its name, for what it is open, and where the next read or write begins.
#[tactic(auto, unfolding(crate::specs::Pfiles::file_text))]
fn push_file(text: &mut Text, descriptor: &FdEntry) -> Result<(), NoMemory>
    ensures { OnOk result (text.new ≡ text.old ++ file_text (fd_entry_words_of descriptor.now)) }
{
    text.text(b"file ")?;
    text.quoted(name_in(&descriptor.name))?;
    text.text(b" mode ")?;
    text.decimal(descriptor.access as u64)?;
    text.text(b" offset ")?;
    text.decimal(descriptor.offset)
}

/// What a descriptor stands for.
#[tactic(auto, unfolding(crate::specs::Pfiles::target_text))]
fn push_target(text: &mut Text, descriptor: &FdEntry) -> Result<(), NoMemory>
    ensures { OnOk result (text.new ≡ text.old ++ target_text (fd_entry_words_of descriptor.now)) }
{
    match descriptor.kind {
        FdKind::File => push_file(text, descriptor),
        FdKind::PipeReader => text.text(b"pipe read"),
        FdKind::PipeWriter => text.text(b"pipe write"),
    }
}

/// The line of a descriptor.
#[tactic(auto, unfolding(crate::specs::Pfiles::descriptor_line))]
fn push_descriptor(text: &mut Text, descriptor: &FdEntry) -> Result<(), NoMemory>
    ensures { OnOk result (text.new ≡ text.old ++ descriptor_line (fd_entry_words_of descriptor.now)) }
{
    text.text(b" ")?;
    text.decimal(u64::from(descriptor.descriptor.number()))?;
    text.text(b": ")?;
    push_target(text, descriptor)?;
    end_line(text)
}

/// The lines of the descriptors.
fn push_descriptors(text: &mut Text, descriptors: &[FdEntry]) -> Result<(), NoMemory>
    ensures { OnOk result (text.new ≡ text.old ++ flat_map descriptor_line (map fd_entry_words_of descriptors.now)) }
{
    for descriptor in descriptors {
        push_descriptor(text, descriptor)?;
    }
    Ok(())
}

/// The text of a process, of its descriptors.
#[tactic(auto, unfolding(crate::specs::Pfiles::pfiles_text))]
pub fn push_pfiles(alloc: Global, text: &mut Text, pid: u32, bytes: &[u8]) -> Result<(), NoMemory>
    ensures { OnOk result (text.new ≡ text.old ++ pfiles_text pid bytes.now) }
{
    push_header(text, pid)?;
    match entries_in::<FdEntry>(alloc, bytes)? {
        None => Ok(()),
        Some(descriptors) => push_descriptors(text, &descriptors),
    }
}
