//! The memory of a core, read as the address space of its process is (proc(4), "as").
ghost use Rattle.std.specs.Prelude.{◌≡◌, IfOk};
ghost use Rattle.pr_model.specs.Reads.{mapped_from};
ghost use Rattle.pr_tools.specs.Calls.{short_read};
ghost use Rattle.pr_core.specs.CoreMemory.{byte_in, byte_of, space_in};
ghost use Rattle.pr_core.specs.CoreTools.{mapping_with, space_with};

use pr_num::{Bytes, NoMemory};
use pr_rec::MapEntry;
use std::alloc::Global;

/// How many bytes an instruction has, and a frame.
pub(crate) const SHORT_READ: usize = 16;

/// The address space of the process of a core: its mappings, and the bytes of each.
#[derive(Clone, Copy)]
pub(crate) struct CoreSpace<'a> {
    pub maps: &'a [MapEntry],
    pub memory: &'a [Bytes],
}

/// The byte at an address, where a mapping of these bytes has it.
#[tactic(auto, unfolding(crate::specs::CoreMemory::byte_of))]
fn byte_of(mapping: &MapEntry, bytes: &[u8], address: u64) -> Option<u8>
    ensures { result ≡ byte_of (mapping_with mapping.now bytes.now) address }
{
    if address < mapping.at {
        return None;
    }
    let place = address - mapping.at;
    if place >= bytes.len() as u64 {
        return None;
    }
    Some(bytes[place as usize])
}

/// The byte at an address, where one of these mappings has it.
fn byte_at(maps: &[MapEntry], memory: &[Bytes], address: u64) -> Option<u8>
    ensures { result ≡ byte_in (space_with maps.now memory.now) address }
{
    let mut maps = maps;
    let mut memory = memory;
    while let Some((mapping, other_maps)) = maps.split_first() {
        let Some((bytes, others)) = memory.split_first() else {
            return None;
        };
        if let Some(byte) = byte_of(mapping, bytes.as_slice(), address) {
            return Some(byte);
        }
        maps = other_maps;
        memory = others;
    }
    None
}

impl CoreSpace<'_> {
    /// The bytes from an address on, as many as an instruction or a frame has, or those before the first that is not
    /// mapped, whatever their protection. Addresses wrap.
    pub(crate) fn short(&self, alloc: Global, at: u64) -> Result<Vec<u8>, NoMemory>
        ensures { IfOk result (λ bytes. bytes.items ≡ mapped_from (space_in self.now) at short_read) }
    {
        let mut bytes = Vec::new(alloc);
        let mut address = at;
        let mut left = SHORT_READ;
        while left > 0 {
            let Some(byte) = byte_at(self.maps, self.memory, address) else {
                return Ok(bytes);
            };
            bytes.push(byte)?;
            address = address.wrapping_add(1);
            left -= 1;
        }
        Ok(bytes)
    }
}
