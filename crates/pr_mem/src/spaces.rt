ghost use Rattle.std.specs.Prelude.{◌≡◌, ◌≤◌, ◌<◌, ◌+◌, ◌^◌, [], All, length, position, remove, true, Some, None, Ok, Err, OnOk, OnErr, IfErr, IfOk, IfSome, IsSome, IsOkUnless, IsTrue, is_ok};
ghost use Rattle.pr_num.specs.Limits.{data_limit, path_limit, text_limit};
ghost use Rattle.pr_num.specs.Layout.{break_limit, heap_base};
ghost use Rattle.pr_num.specs.Programs.{rounded};
ghost use Rattle.pr_num.specs.Spaces.{mapped_size, mapping_limit, bytes_for, first_mappings, kind_of_number};
ghost use Rattle.pr_parts.specs.AddressSpaces.{LeavesHeapPlace, gap_in, is_break_heap, is_free, is_outside_heap_place, text_at, with_break, with_bytes, with_heap, with_mapping, with_protected, without_range, zeros_at};
ghost use Rattle.pr_mem.specs.Answers.{access_answer, break_refusal, done_unless, has_heap_room, map_refusal, range_refusal, text_answer, with_text};

use crate::mappings::{self, Mapping};
use crate::{Map, MemFault, accesses, gaps, mapping_lists, ranges, texts, writes};
use pr_num::layout::{self, HEAP_BASE, PAGE_SIZE, rounded};
use pr_num::limits::{MAPPING_LIMIT, PATH_LIMIT};
use pr_num::{MappingKind, NoMemory, Prot};
use std::alloc::Global;
use std::marker::Model;

/// An address space, seen by contracts as the list of its mappings.
#[derive(Drop)]
pub struct Space {
    mappings: Vec<Mapping>,
    mapped: u64,
}

impl Model for Space {
    ghost use Rattle.std.specs.Prelude.{◌≡◌, List};
    ghost use Rattle.pr_num.specs.declared.mappings.Mapping.{Mapping};

    ghost Value = { List Mapping };

    ghost use Rattle.pr_num.specs.Spaces.{IsSpace, mapped_size};

    ghost view = { λ space. space.mappings.items };

    ghost invariant = { λ space. IsSpace space.mappings.items × (space.mapped ≡ mapped_size space.mappings.items) };
}

impl Space {
    ghost use Rattle.pr_num.specs.Spaces.{IsSpace};

    /// The most bytes that can be mapped.
    pub const LIMIT: u64 = MAPPING_LIMIT;

    /// Where the heap begins.
    pub const HEAP: u64 = HEAP_BASE;

    /// The address that the break cannot pass.
    pub const BREAK_LIMIT: u64 = layout::BREAK_LIMIT;

    /// A space in which nothing is mapped. Takes no memory.
    pub fn new(alloc: Global) -> Space
        ensures { result ≡ [] }
    {
        Space {
            mappings: Vec::new(alloc),
            mapped: 0,
        }
    }

    /// The space in which a program begins: its text and its data, each where it is not empty, and a stack of 4,096
    /// bytes.
    pub fn first(alloc: Global, text: &[u8], bytes: &[u8]) -> Result<Space, NoMemory>
        requires text { length text.now ≤ text_limit }
        requires data { length bytes.now ≤ data_limit }
        ensures value { IfOk result (λ space. space ≡ first_mappings text.now bytes.now) }
        ensures heap_place { IfOk result (λ space. All LeavesHeapPlace space) }
    {
        let mappings = mapping_lists::first_mappings(alloc, text, bytes)?;
        let mapped = rounded(text.len() as u64) + rounded(bytes.len() as u64) + PAGE_SIZE;
        Ok(Space { mappings, mapped })
    }

    /// The mappings by rising address, apart from each other.
    pub fn mappings(&self) -> &[Mapping]
        ensures value { result.now ≡ self.now }
        ensures space { IsSpace self.now }
    {
        &self.mappings
    }

    /// How many bytes are mapped, at most 1 MiB.
    pub fn mapped(&self) -> u64
        ensures { result ≡ mapped_size self.now }
    {
        self.mapped
    }

    /// Reads bytes from an address on, which need these protections. Where that fails at a byte, the first such byte is
    /// named, and the buffer stays as it is.
    pub fn read(&self, at: u64, out: &mut [u8], need: u8) -> Result<(), MemFault>
        ensures answer { result ≡ access_answer (bytes_for need self.now at (length out.old)) }
        ensures ok { OnOk result (bytes_for need self.now at (length out.old) ≡ Ok out.new) }
        ensures err { OnErr result (out.new ≡ out.old) }
    {
        let first = ranges::place_at(&self.mappings, at);
        accesses::read(&self.mappings, first, need, at, out)?;
        Ok(())
    }

    /// Whether so many bytes from an address on can be accessed, which needs these protections.
    pub fn can_access(&self, at: u64, len: usize, need: u8) -> bool
        ensures { result ≡ is_ok (bytes_for need self.now at len) }
    {
        let first = ranges::place_at(&self.mappings, at);
        accesses::check(&self.mappings, first, need, at, len).is_ok()
    }

    /// Writes bytes from an address on, which need these protections. Where that fails at a byte, the first such byte
    /// is named. Then, and where memory runs out, the space stays as it is.
    pub fn write(&mut self, at: u64, bytes: &[u8], need: u8) -> Result<(), MemFault>
        ensures refused { IfErr (access_answer (bytes_for need self.old at (length bytes.now))) (λ fault. result ≡ Err fault) }
        ensures granted { OnOk (access_answer (bytes_for need self.old at (length bytes.now)))
            (IsOkUnless result MemFault.NoMemory) }
        ensures ok { OnOk result (self.new ≡ with_bytes at bytes.now self.old) }
        ensures err { OnErr result (self.new ≡ self.old) }
        ensures heap_place { All LeavesHeapPlace self.old → All LeavesHeapPlace self.new }
    {
        let first = ranges::place_at(&self.mappings, at);
        accesses::check(&self.mappings, first, need, at, bytes.len())?;
        writes::write_from(&mut self.mappings, first, at, bytes)?;
        Ok(())
    }

    /// Reads a text that ends with a zero byte, of which at most `max` bytes are looked at, and puts what stands before
    /// the zero into the front of the buffer. `None` where these bytes have no zero. Where one of them cannot be read
    /// and none before it is zero, the first such byte is named. Then, and without a zero, the buffer stays as it is.
    pub fn string_at(
        &self,
        at: u64,
        max: usize,
        out: &mut [u8; PATH_LIMIT],
    ) -> Result<Option<usize>, MemFault>
        requires { max ≤ path_limit }
        ensures answer { result ≡ text_answer (text_at self.now at max) }
        ensures text { out.new ≡ with_text (text_at self.now at max) out.old }
    {
        Ok(texts::read_text(&self.mappings, at, max, &mut out[..])?)
    }

    /// Maps zero bytes. Where a mapping stands there, where more than 1 MiB would be mapped, or where memory runs out,
    /// the space stays as it is. A mapping that has no byte where the heap can be leaves the heap its place, as the
    /// other calls do.
    pub fn map_as(
        &mut self,
        alloc: Global,
        at: u64,
        size: u64,
        prot: Prot,
        kind: MappingKind,
    ) -> Result<(), MemFault>
        requires size { 0 < size }
        requires end { at + size < 2 ^ 64 }
        ensures refused { IfSome (map_refusal at size self.old) (λ fault. result ≡ Err fault) }
        ensures granted { map_refusal at size self.old ≡ None → IsOkUnless result MemFault.NoMemory }
        ensures ok { OnOk result (self.new ≡ with_mapping (zeros_at at size prot kind) self.old) }
        ensures err { OnErr result (self.new ≡ self.old) }
        ensures heap_place { IsTrue (is_outside_heap_place at size) → All LeavesHeapPlace self.old → All LeavesHeapPlace self.new }
    {
        if !ranges::is_free(&self.mappings, at, size) {
            return Err(MemFault::Overlap);
        }
        if size > Space::LIMIT - self.mapped {
            return Err(MemFault::TooBig);
        }
        let mapping = Mapping::zeros_at(alloc, at, size as usize, prot, kind)?;
        self.add(mapping)?;
        Ok(())
    }

    /// The same, where protections and kind are given by their numbers.
    pub fn map(&mut self, alloc: Global, m: Map) -> Result<(), MemFault>
        requires size { 0 < m.size }
        requires end { m.at + m.size < 2 ^ 64 }
        requires prot { m.prot < 8 }
        requires kind { IsSome (kind_of_number m.kind) }
        ensures refused { IfSome (map_refusal m.at m.size self.old) (λ fault. result ≡ Err fault) }
        ensures granted { map_refusal m.at m.size self.old ≡ None → IsOkUnless result MemFault.NoMemory }
        ensures ok { OnOk result
            (IfSome (kind_of_number m.kind)
            (λ kind. self.new ≡ with_mapping (zeros_at m.at m.size m.prot kind) self.old)) }
        ensures err { OnErr result (self.new ≡ self.old) }
        ensures heap_place { IsTrue (is_outside_heap_place m.at m.size) → All LeavesHeapPlace self.old → All LeavesHeapPlace self.new }
    {
        let kind = MappingKind::from_number(u64::from(m.kind)).unwrap();
        self.map_as(alloc, m.at, m.size, mappings::prot_of(m.prot), kind)
    }

    /// Takes away the mapping that is this range; where none is, the space stays as it is.
    #[tactic(auto, using(pr_parts::proofs::SpaceLemmas::ranges))]
    pub fn unmap(&mut self, at: u64, size: u64) -> Result<(), MemFault>
        ensures answer { result ≡ done_unless (range_refusal at size self.old) }
        ensures ok { OnOk result (self.new ≡ without_range at size self.old) }
        ensures err { OnErr result (self.new ≡ self.old) }
        ensures heap_place { All LeavesHeapPlace self.old → All LeavesHeapPlace self.new }
    {
        let Some(place) = ranges::place_of(&self.mappings, at, size) else {
            return Err(MemFault::Hole { at });
        };
        self.remove(place);
        Ok(())
    }

    /// Lets the mapping that is this range allow something else; where none is, the space stays as it is.
    #[tactic(auto, using(pr_parts::proofs::SpaceLemmas::ranges))]
    pub fn protect_as(&mut self, at: u64, size: u64, prot: Prot) -> Result<(), MemFault>
        ensures answer { result ≡ done_unless (range_refusal at size self.old) }
        ensures ok { OnOk result (self.new ≡ with_protected at size prot self.old) }
        ensures err { OnErr result (self.new ≡ self.old) }
        ensures heap_place { All LeavesHeapPlace self.old → All LeavesHeapPlace self.new }
    {
        let Some(place) = ranges::place_of(&self.mappings, at, size) else {
            return Err(MemFault::Hole { at });
        };
        self.mappings[place].set_prot(prot);
        Ok(())
    }

    /// The same, where the protections are given by their number.
    pub fn protect(&mut self, at: u64, size: u64, prot: u8) -> Result<(), MemFault>
        requires { prot < 8 }
        ensures answer { result ≡ done_unless (range_refusal at size self.old) }
        ensures ok { OnOk result (self.new ≡ with_protected at size prot self.old) }
        ensures err { OnErr result (self.new ≡ self.old) }
        ensures heap_place { All LeavesHeapPlace self.old → All LeavesHeapPlace self.new }
    {
        self.protect_as(at, size, mappings::prot_of(prot))
    }

    /// How many bytes would be mapped if the break stood at an address. Nothing is changed.
    pub fn size_with_break(&self, end: u64) -> u64
        requires least { heap_base ≤ end }
        requires most { end ≤ break_limit }
        ensures { result ≡ mapped_size (with_break end self.now) }
    {
        self.size_with_heap(ranges::heap_size(end))
    }

    /// Moves the break, which ends the heap: the heap is as many bytes as lie below the break, rounded up to a multiple
    /// of 4,096. Bytes that come to it are zero. Where more than 1 MiB would be mapped, or where memory runs out, the
    /// space stays as it is.
    pub fn brk(&mut self, alloc: Global, end: u64) -> Result<(), MemFault>
        requires least { heap_base ≤ end }
        requires most { end ≤ break_limit }
        requires place { All LeavesHeapPlace self.old }
        ensures refused { IfSome (break_refusal end self.old) (λ fault. result ≡ Err fault) }
        ensures granted { break_refusal end self.old ≡ None → IsOkUnless result MemFault.NoMemory }
        ensures ok { OnOk result (self.new ≡ with_break end self.old) }
        ensures err { OnErr result (self.new ≡ self.old) }
        ensures heap_place { All LeavesHeapPlace self.new }
    {
        let size = ranges::heap_size(end);
        if !self.has_heap_room(size) {
            return Err(MemFault::TooBig);
        }
        self.set_heap(alloc, size)?;
        Ok(())
    }

    /// The least address of a page from `GAP_BASE` on at which a mapping of this size meets none and ends before the
    /// stack.
    pub fn gap(&self, size: u64) -> Option<u64>
        ensures { result ≡ gap_in size self.now }
    {
        gaps::gap(&self.mappings, size)
    }

    /// Takes all mappings away. Takes no memory.
    pub fn clear(&mut self)
        ensures { self.new ≡ [] }
    {
        self.mappings.clear();
        self.mapped = 0;
    }

    /// The same space again.
    pub fn copy(&self, alloc: Global) -> Result<Space, NoMemory>
        ensures { IfOk result (λ copy. copy ≡ self.now) }
    {
        Ok(Space {
            mappings: mapping_lists::copies(alloc, &self.mappings)?,
            mapped: self.mapped,
        })
    }

    /// Adds a mapping where there is room for it.
    fn add(&mut self, mapping: Mapping) -> Result<(), NoMemory>
        requires some { 0 < length mapping.bytes }
        requires end { mapping.at + length mapping.bytes < 2 ^ 64 }
        requires free { is_free mapping.at (length mapping.bytes) self.old ≡ true }
        requires room { mapped_size self.old + length mapping.bytes ≤ mapping_limit }
        ensures ok { OnOk result (self.new ≡ with_mapping mapping self.old) }
        ensures err { OnErr result (self.new ≡ self.old) }
    {
        let size = mapping.size();
        let place = ranges::place_for(&self.mappings, mapping.at());
        mapping_lists::put(&mut self.mappings, place, mapping)?;
        self.mapped += size;
        Ok(())
    }

    /// How many bytes are mapped where the heap has so many.
    fn size_with_heap(&self, size: u64) -> u64
        requires { heap_base + size ≤ break_limit }
        ensures { result ≡ mapped_size (with_heap size self.now) }
    {
        self.mapped - ranges::heap_bytes(&self.mappings) + size
    }

    /// Whether the heap can have so many bytes.
    fn has_heap_room(&self, size: u64) -> bool
        requires { heap_base + size ≤ break_limit }
        ensures { result ≡ has_heap_room size self.now }
    {
        self.size_with_heap(size) <= Space::LIMIT
    }

    /// Gives the heap so many bytes, for which there is room.
    fn set_heap(&mut self, alloc: Global, size: u64) -> Result<(), NoMemory>
        requires room { has_heap_room size self.old ≡ true }
        requires within { heap_base + size ≤ break_limit }
        requires place { All LeavesHeapPlace self.old }
        ensures ok { OnOk result (self.new ≡ with_heap size self.old) }
        ensures err { OnErr result (self.new ≡ self.old) }
    {
        match ranges::heap_place(&self.mappings) {
            None => self.make_heap(alloc, size),
            Some(place) => self.resize_heap(alloc, place, size),
        }
    }

    /// Makes a heap of so many bytes where there is none.
    fn make_heap(&mut self, alloc: Global, size: u64) -> Result<(), NoMemory>
        requires none { position is_break_heap self.old ≡ None }
        requires room { has_heap_room size self.old ≡ true }
        requires within { heap_base + size ≤ break_limit }
        requires place { All LeavesHeapPlace self.old }
        ensures ok { OnOk result (self.new ≡ with_heap size self.old) }
        ensures err { OnErr result (self.new ≡ self.old) }
    {
        if size == 0 {
            return Ok(());
        }
        let prot = mappings::prot_of(mappings::READ_WRITE);
        let heap = Mapping::zeros_at(alloc, HEAP_BASE, size as usize, prot, MappingKind::Heap)?;
        self.add(heap)
    }

    /// Gives the heap, which stands in a place, so many bytes.
    fn resize_heap(&mut self, alloc: Global, place: usize, size: u64) -> Result<(), NoMemory>
        requires found { position is_break_heap self.old ≡ Some place }
        requires room { has_heap_room size self.old ≡ true }
        requires within { heap_base + size ≤ break_limit }
        requires place { All LeavesHeapPlace self.old }
        ensures ok { OnOk result (self.new ≡ with_heap size self.old) }
        ensures err { OnErr result (self.new ≡ self.old) }
    {
        if size == 0 {
            self.remove(place);
            return Ok(());
        }
        let old = self.mappings[place].size();
        mapping_lists::resize_at(&mut self.mappings, alloc, place, size as usize)?;
        self.mapped = self.mapped - old + size;
        Ok(())
    }

    /// Takes the mapping in a place away.
    fn remove(&mut self, place: usize)
        requires { place < length self.old }
        ensures { self.new ≡ remove self.old place }
    {
        let gone = self.mappings.remove(place);
        self.mapped -= gone.size();
    }
}
