ghost use Rattle.std.specs.Prelude.{◌≡◌, ◌≤◌, ◌<◌, ◌+◌, ◌^◌, length, OnOk, OnErr};
ghost use Rattle.std.specs.Bool.{OnTrue};
ghost use Rattle.pr_num.specs.Spaces.{IsSpace};
ghost use Rattle.pr_parts.specs.AddressSpaces.{with_bytes};
ghost use Rattle.pr_mem.specs.Places.{IsLast, IsPlace};

use crate::mapping_lists;
use crate::mappings::Mapping;
use pr_num::NoMemory;
use std::alloc::Global;

// Bytes are written mapping by mapping, each what it has of them, from the first that has some on. Those before it, and
// those that begin behind the last byte, are not touched. Where more than one has some, they are written over copies,
// which share the pages that are not touched: so that nothing is changed where memory runs out on the way.

/// Whether no mapping behind this place begins before an address.
fn is_last(mappings: &[Mapping], place: usize, end: u64) -> bool
    requires { place ≤ length mappings.now }
    ensures { OnTrue result (IsLast mappings.now place end) }
{
    match mappings.get(place + 1) {
        Some(next) => end <= next.at(),
        None => true,
    }
}

/// Writes bytes from an address on, of which `place` is the place, where only the mapping there has some of them. Where
/// memory runs out it stays as it is.
fn write_one(
    mappings: &mut [Mapping],
    place: usize,
    alloc: Global,
    at: u64,
    bytes: &[u8],
) -> Result<(), NoMemory>
    requires space { IsSpace mappings.old }
    requires place { IsPlace mappings.old at place }
    requires last { IsLast mappings.old place (at + length bytes.now) }
    requires end { at + length bytes.now < 2 ^ 64 }
    ensures ok { OnOk result (mappings.new ≡ with_bytes at bytes.now mappings.old) }
    ensures err { OnErr result (mappings.new ≡ mappings.old) }
{
    if place < mappings.len() {
        mappings[place].write(alloc, at, bytes)
    } else {
        Ok(())
    }
}

/// Writes bytes from an address on, of which `first` is the place, wherever something is mapped. Where memory runs out
/// it is not said what the mappings have.
fn write_each(
    mappings: &mut [Mapping],
    first: usize,
    alloc: Global,
    at: u64,
    bytes: &[u8],
) -> Result<(), NoMemory>
    requires space { IsSpace mappings.old }
    requires place { IsPlace mappings.old at first }
    requires end { at + length bytes.now < 2 ^ 64 }
    ensures { OnOk result (mappings.new ≡ with_bytes at bytes.now mappings.old) }
{
    let end = at + bytes.len() as u64;
    let mut place = first;
    while place < mappings.len() && mappings[place].at() < end {
        mappings[place].write(alloc, at, bytes)?;
        place += 1;
    }
    Ok(())
}

/// The same over a copy, which takes the place of the mappings. Where memory runs out they stay as they are.
fn write_over_copy(
    mappings: &mut Vec<Mapping>,
    first: usize,
    at: u64,
    bytes: &[u8],
) -> Result<(), NoMemory>
    requires space { IsSpace mappings.old.items }
    requires place { IsPlace mappings.old.items at first }
    requires end { at + length bytes.now < 2 ^ 64 }
    ensures ok { OnOk result (mappings.new.items ≡ with_bytes at bytes.now mappings.old.items) }
    ensures err { OnErr result (mappings.new.items ≡ mappings.old.items) }
{
    let alloc = *mappings.allocator();
    let mut copies = mapping_lists::copies(alloc, mappings)?;
    write_each(&mut copies, first, alloc, at, bytes)?;
    *mappings = copies;
    Ok(())
}

/// Writes bytes from an address on, of which `first` is the place, wherever something is mapped. Where memory runs out
/// the mappings stay as they are.
pub fn write_from(
    mappings: &mut Vec<Mapping>,
    first: usize,
    at: u64,
    bytes: &[u8],
) -> Result<(), NoMemory>
    requires space { IsSpace mappings.old.items }
    requires place { IsPlace mappings.old.items at first }
    requires end { at + length bytes.now < 2 ^ 64 }
    ensures ok { OnOk result (mappings.new.items ≡ with_bytes at bytes.now mappings.old.items) }
    ensures err { OnErr result (mappings.new.items ≡ mappings.old.items) }
{
    if is_last(mappings, first, at + bytes.len() as u64) {
        let alloc = *mappings.allocator();
        write_one(mappings, first, alloc, at, bytes)
    } else {
        write_over_copy(mappings, first, at, bytes)
    }
}
