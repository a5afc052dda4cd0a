//! Whether the mappings of a process allow what its agent does.
ghost use Rattle.std.specs.Prelude.{◌≡◌, ◌<◌, ◌≤◌, drop, length};
ghost use Rattle.pr_num.specs.Records.{map_entry_ranges};
ghost use Rattle.pr_rec.specs.Reading.{record_read};
ghost use Rattle.pr_rec.specs.RecordWords.{map_entry_words_of};
ghost use Rattle.pr_probe.specs.Regions.{code_region, stack_region, allows, allows_in, mapping_record, map_allows, has_room};

use crate::agent_code::{CODE_SIZE, STACK_SIZE};
use pr_num::Prot;
use pr_num::layout::{STACK_BASE, TEXT_BASE};
use pr_rec::MapEntry;

/// How many bytes the record of a mapping has.
const MAPPING_RECORD: usize = 64;

/// Bytes of a process to which an access is wanted.
#[derive(Drop)]
pub struct Region {
    /// The address of the first.
    pub at: u64,
    /// How many they are.
    pub size: u64,
    /// What is to be allowed.
    pub access: Prot,
}

/// The bytes of the agent's code, which it runs.
fn code_region() -> Region
    ensures { result ≡ code_region }
{
    Region {
        at: TEXT_BASE,
        size: CODE_SIZE as u64,
        access: Prot::EXEC,
    }
}

/// The bytes on the stack to which fstat(2) writes.
fn stack_region() -> Region
    ensures { result ≡ stack_region }
{
    Region {
        at: STACK_BASE,
        size: STACK_SIZE as u64,
        access: Prot::WRITE,
    }
}

/// Whether a mapping has all bytes of a region and allows the access.
#[tactic(auto, unfolding(crate::specs::Regions::allows))]
fn allows(mapping: &MapEntry, region: &Region) -> bool
    ensures { result ≡ allows (map_entry_words_of mapping.now) region.now }
{
    if region.at < mapping.at || mapping.size < region.size {
        return false;
    }
    region.at - mapping.at <= mapping.size - region.size && mapping.prot.has(region.access)
}

/// The same of the mapping whose record bytes begin with; false where they begin with none.
#[tactic(auto, unfolding(crate::specs::Regions::allows_in))]
fn allows_in(bytes: &[u8], region: &Region) -> bool
    ensures { result ≡ allows_in region.now (record_read map_entry_ranges bytes.now) }
{
    match MapEntry::decode(bytes) {
        Ok(mapping) => allows(&mapping, region),
        Err(_) => false,
    }
}

/// The bytes after the first mapping.
fn after_mapping(bytes: &[u8]) -> &[u8]
    requires { mapping_record ≤ length bytes.now }
    ensures rest { result.now ≡ drop mapping_record bytes.now }
    ensures shorter { length result.now < length bytes.now }
{
    bytes.split_at(MAPPING_RECORD).1
}

/// Whether one of the mappings does.
#[tactic(auto, using(crate::proofs::RegionLemmas::mappings))]
fn map_allows(bytes: &[u8], region: &Region) -> bool
    ensures { result ≡ map_allows region.now bytes.now }
{
    let mut rest = bytes;
    while rest.len() >= MAPPING_RECORD {
        if allows_in(rest, region) {
            return true;
        }
        rest = after_mapping(rest);
    }
    false
}

/// Whether a process has room for what an agent does: its code can be run at the base of the text, and the answer of
/// fstat(2) can be written at the base of the stack.
#[tactic(auto, unfolding(crate::specs::Regions::has_room))]
pub(crate) fn has_room(map: &[u8]) -> bool
    ensures { result ≡ has_room map.now }
{
    map_allows(map, &code_region()) && map_allows(map, &stack_region())
}
