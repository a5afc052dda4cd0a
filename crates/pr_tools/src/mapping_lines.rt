//! The text of pmap.
ghost use Rattle.std.specs.Prelude.{◌≡◌, ◌≤◌, ◌<◌, ◌^◌, ◌⊎◌, ◌+◌, ◌++◌, length, map, sum_by, IfOk, OnOk};
ghost use Rattle.std.specs.List.{flat_map};
ghost use Rattle.pr_num.specs.Spaces.{kind_number, kind_of_number};
ghost use Rattle.pr_rec.specs.RecordWords.{map_entry_words_of};
ghost use Rattle.pr_tools.specs.Pmap.{access_letter, prot_text, kind_text, named, units, place_text, mapping_line, total_line, HasTotal, pmap_text};

use crate::entries::entries_in;
use crate::names::name_in;
use crate::texts::{end_line, push_header};
use pr_num::{MappingKind, NoMemory, Prot};
use pr_rec::MapEntry;
use pr_text::Text;
use std::alloc::Global;

/// How many bytes the unit of sizes has.
const UNIT: u64 = 1_024;

/// The letter of an access that a protection allows, else a dash.
#[tactic(auto, unfolding(crate::specs::Pmap::access_letter))]
fn push_access(text: &mut Text, prot: Prot, access: Prot, letter: &[u8]) -> Result<(), NoMemory>
    ensures { OnOk result (text.new ≡ text.old ++ access_letter prot access letter.now) }
{
    if prot.has(access) {
        text.text(letter)
    } else {
        text.text(b"-")
    }
}

/// A protection by the letters of reading, writing and executing.
#[tactic(auto, unfolding(crate::specs::Pmap::prot_text))]
fn push_prot(text: &mut Text, prot: Prot) -> Result<(), NoMemory>
    ensures { OnOk result (text.new ≡ text.old ++ prot_text prot) }
{
    push_access(text, prot, Prot::READ, b"r")?;
    push_access(text, prot, Prot::WRITE, b"w")?;
    push_access(text, prot, Prot::EXEC, b"x")
}

/// What a mapping is for.
#[tactic(auto, unfolding(crate::specs::Pmap::kind_name, pr_num::specs::Spaces::kind_number))]
fn push_kind(text: &mut Text, kind: MappingKind) -> Result<(), NoMemory>
    ensures { OnOk result (text.new ≡ text.old ++ kind_text (kind_of_number (kind_number kind))) }
{
    match kind {
        MappingKind::Text => text.text(b"text"),
        MappingKind::Data => text.text(b"data"),
        MappingKind::Heap => text.text(b"heap"),
        MappingKind::Stack => text.text(b"stack"),
        MappingKind::Mapped => text.text(b"mapped"),
    }
}

/// A name with a blank before it, where there is one.
#[tactic(auto, unfolding(crate::specs::Pmap::named))]
fn push_named(text: &mut Text, name: &[u8]) -> Result<(), NoMemory>
    ensures { OnOk result (text.new ≡ text.old ++ named name.now) }
{
    match name {
        [] => Ok(()),
        [_, ..] => {
            text.text(b" ")?;
            text.text(name)
        }
    }
}

/// Where a mapping lies, and its size.
#[tactic(auto, unfolding(crate::specs::Pmap::place_text))]
fn push_place(text: &mut Text, mapping: &MapEntry) -> Result<(), NoMemory>
    ensures { OnOk result (text.new ≡ text.old ++ place_text (map_entry_words_of mapping.now)) }
{
    text.text(b" ")?;
    text.hex8(mapping.at)?;
    text.text(b" ")?;
    text.decimal(mapping.size / UNIT)?;
    text.text(b"K ")
}

/// The line of a mapping.
#[tactic(auto, unfolding(crate::specs::Pmap::mapping_line))]
fn push_mapping(text: &mut Text, mapping: &MapEntry) -> Result<(), NoMemory>
    ensures { OnOk result (text.new ≡ text.old ++ mapping_line (map_entry_words_of mapping.now)) }
{
    push_place(text, mapping)?;
    push_prot(text, mapping.prot)?;
    text.text(b" ")?;
    push_kind(text, mapping.kind)?;
    push_named(text, name_in(&mapping.name))?;
    end_line(text)
}

/// The lines of the mappings. Answers the sum of their sizes.
fn push_mappings(text: &mut Text, mappings: &[MapEntry]) -> Result<u64, NoMemory>
    requires { (length mappings.now ≤ 1024) ⊎ (sum_by units (map map_entry_words_of mappings.now) < 2 ^ 64) }
    ensures lines { OnOk result (text.new ≡ text.old ++ flat_map mapping_line (map map_entry_words_of mappings.now)) }
    ensures total { IfOk result (λ total. total ≡ sum_by units (map map_entry_words_of mappings.now)) }
{
    let mut total = 0;
    for mapping in mappings {
        push_mapping(text, mapping)?;
        total += mapping.size / UNIT;
    }
    Ok(total)
}

/// The last line.
#[tactic(auto, unfolding(crate::specs::Pmap::total_line))]
fn push_total(text: &mut Text, total: u64) -> Result<(), NoMemory>
    ensures { OnOk result (text.new ≡ text.old ++ total_line total) }
{
    text.text(b" total ")?;
    text.decimal(total)?;
    text.text(b"K")?;
    end_line(text)
}

/// The text of a process, of its mappings.
#[tactic(auto, unfolding(crate::specs::Pmap::pmap_text))]
pub fn push_pmap(alloc: Global, text: &mut Text, pid: u32, bytes: &[u8]) -> Result<(), NoMemory>
    requires { HasTotal bytes.now }
    ensures { OnOk result (text.new ≡ text.old ++ pmap_text pid bytes.now) }
{
    push_header(text, pid)?;
    match entries_in::<MapEntry>(alloc, bytes)? {
        None => Ok(()),
        Some(mappings) => {
            let total = push_mappings(text, &mappings)?;
            push_total(text, total)
        }
    }
}
