ghost use Rattle.std.specs.Prelude.{◌≡◌, ◌≤◌, ◌<◌, ◌+◌, ◌^◌, ◌++◌, ◌∷◌, length, [], insert, slice_get, slice_set, Some, IfOk, OnOk, OnErr};
ghost use Rattle.pr_num.specs.Limits.{data_limit, mapping_limit, text_limit};
ghost use Rattle.pr_num.specs.Spaces.{unless_empty, first_mappings};
ghost use Rattle.pr_num.specs.declared.mappings.Mapping.{Mapping};
ghost use Rattle.pr_parts.specs.AddressSpaces.{resized};

use crate::mappings::{self, Mapping};
use pr_num::layout::{DATA_BASE, PAGE_SIZE, STACK_BASE, TEXT_BASE};
use pr_num::{MappingKind, NoMemory, PROT_EXEC, PROT_READ, Prot};
use std::alloc::Global;

// Lists of mappings: those of a program that begins, and those of a copy.

/// The word of the protections to read and to run.
const READ_EXECUTE: u8 = PROT_READ + PROT_EXEC;

/// Puts a mapping behind the others.
fn push(mappings: &mut Vec<Mapping>, mapping: Mapping) -> Result<(), NoMemory>
    ensures { OnOk result (mappings.new.items ≡ mappings.old.items ++ mapping ∷ []) }
{
    mappings.push(mapping)?;
    Ok(())
}

/// Puts a mapping of these bytes behind the others, unless there are none.
fn push_pages(
    mappings: &mut Vec<Mapping>,
    alloc: Global,
    at: u64,
    prot: Prot,
    kind: MappingKind,
    bytes: &[u8],
) -> Result<(), NoMemory>
    requires size { length bytes.now ≤ data_limit }
    requires end { at + length bytes.now < 2 ^ 64 }
    ensures { OnOk result (mappings.new.items ≡ mappings.old.items ++ unless_empty at prot kind bytes.now) }
{
    if bytes.is_empty() {
        return Ok(());
    }
    let mapping = Mapping::of_bytes(alloc, at, prot, kind, bytes)?;
    push(mappings, mapping)
}

/// The mappings with which a program of this text and these data begins.
pub fn first_mappings(alloc: Global, text: &[u8], bytes: &[u8]) -> Result<Vec<Mapping>, NoMemory>
    requires text { length text.now ≤ text_limit }
    requires data { length bytes.now ≤ data_limit }
    ensures { IfOk result (λ first. first.items ≡ first_mappings text.now bytes.now) }
{
    let run = mappings::prot_of(READ_EXECUTE);
    let change = mappings::prot_of(mappings::READ_WRITE);
    let mut first = Vec::new(alloc);
    push_pages(&mut first, alloc, TEXT_BASE, run, MappingKind::Text, text)?;
    push_pages(
        &mut first,
        alloc,
        DATA_BASE,
        change,
        MappingKind::Data,
        bytes,
    )?;
    let stack = Mapping::zeros_at(
        alloc,
        STACK_BASE,
        PAGE_SIZE as usize,
        change,
        MappingKind::Stack,
    )?;
    push(&mut first, stack)?;
    Ok(first)
}

/// Puts a mapping into a place; where memory runs out nothing is changed.
pub fn put(mappings: &mut Vec<Mapping>, place: usize, mapping: Mapping) -> Result<(), NoMemory>
    requires { place ≤ length mappings.old.items }
    ensures ok { OnOk result (mappings.new.items ≡ insert mappings.old.items place mapping) }
    ensures err { OnErr result (mappings.new.items ≡ mappings.old.items) }
{
    mappings.insert(place, mapping)?;
    Ok(())
}

/// Cuts the mapping in a place off, or lets it grow by zeros, to so many bytes; where memory runs out it stays as it
/// is.
pub fn resize_at(
    mappings: &mut Vec<Mapping>,
    alloc: Global,
    place: usize,
    size: usize,
) -> Result<(), NoMemory>
    requires place { place < length mappings.old.items }
    requires size { size ≤ mapping_limit }
    ensures ok { OnOk result ((m : Mapping) → slice_get mappings.old.items place ≡ Some m
        → mappings.new.items ≡ slice_set mappings.old.items place (resized size m)) }
    ensures err { OnErr result (mappings.new.items ≡ mappings.old.items) }
{
    mappings[place].resize(alloc, size)
}

/// The same mappings, which share their pages with these.
pub fn copies(alloc: Global, mappings: &[Mapping]) -> Result<Vec<Mapping>, NoMemory>
    ensures { IfOk result (λ copies. copies.items ≡ mappings.now) }
{
    let mut copies = Vec::new(alloc);
    for mapping in mappings {
        copies.push(mapping.copy(alloc)?)?;
    }
    Ok(copies)
}
