ghost use Rattle.std.specs.Prelude.{◌≡◌, ◌≤◌, ◌<◌, ◌+◌, ◌-◌, ◌^◌, length, position, find, IfSome};
ghost use Rattle.std.specs.List.{list_any, position_or_len};
ghost use Rattle.std.specs.Option.{option_copied};
ghost use Rattle.pr_num.specs.Layout.{break_limit, heap_base};
ghost use Rattle.pr_num.specs.Control.{has_flags};
ghost use Rattle.pr_num.specs.Programs.{rounded};
ghost use Rattle.pr_num.specs.Spaces.{IsSpace, covers, mapped_size};
ghost use Rattle.pr_parts.specs.ByAddress.{is_behind};
ghost use Rattle.pr_parts.specs.AddressSpaces.{address_of, meets, is_break_heap, is_free, is_range};
ghost use Rattle.pr_mem.specs.Answers.{heap_bytes};
ghost use Rattle.pr_mem.specs.Places.{IsPlace, ends_before};

use crate::mappings::Mapping;
use pr_num::MappingKind;
use pr_num::layout::{HEAP_BASE, rounded};

// Which mapping has a byte, and which stands in a range. Mappings stand by rising address, so that each byte has its
// place among them, and this is searched for by halves.

fn ends_before(mapping: &Mapping, address: u64) -> bool
    ensures { result ≡ ends_before address mapping.now }
{
    let at = mapping.at();
    at <= address && mapping.size() <= address - at
}

/// The place of an address, by a search of the mappings. No mapping but the one in this place has the byte there.
pub fn place_at(mappings: &[Mapping], address: u64) -> usize
    requires { IsSpace mappings.now }
    ensures { IsPlace mappings.now address result }
{
    mappings.partition_point(|mapping| ends_before(mapping, address))
}

/// The mapping that has the byte at an address, of which this is the place.
#[tactic(auto, using(pr_parts::proofs::AccessLemmas::finds))]
pub fn mapping_at(mappings: &[Mapping], place: usize, address: u64) -> Option<&Mapping>
    requires space { IsSpace mappings.now }
    requires place { IsPlace mappings.now address place }
    ensures value { option_copied result ≡ find (covers address) mappings.now }
    ensures low { IfSome result (λ m. m.now.at ≤ address) }
    ensures high { IfSome result (λ m. address < m.now.at + length m.now.bytes) }
    ensures limit { IfSome result (λ m. m.now.at + length m.now.bytes < 2 ^ 64) }
{
    let mapping = mappings.get(place)?;
    if mapping.at() <= address {
        Some(mapping)
    } else {
        None
    }
}

/// The place of an address, unless no byte is left to be accessed there.
pub fn next_place(mappings: &[Mapping], address: u64, left: usize) -> usize
    requires { IsSpace mappings.now }
    ensures { 0 < left → IsPlace mappings.now address result }
{
    if left == 0 {
        0
    } else {
        place_at(mappings, address)
    }
}

/// Whether a mapping allows an access that needs these protections.
#[tactic(auto, unfolding(pr_num::specs::Control::has_flags, pr_num::specs::Sets::common_word))]
pub fn allows(mapping: &Mapping, need: u8) -> bool
    ensures { result ≡ has_flags mapping.now.prot need }
{
    mapping.prot().word() & u64::from(need) == u64::from(need)
}

/// Whether a mapping has a byte of a range.
pub fn meets(mapping: &Mapping, at: u64, size: u64) -> bool
    ensures { result ≡ meets at size mapping.now }
{
    let first = mapping.at();
    (at < first || at - first < mapping.size()) && (first < at || first - at < size)
}

fn is_met(mappings: &[Mapping], at: u64, size: u64) -> bool
    ensures { result ≡ list_any (meets at size) mappings.now }
{
    mappings.iter().any(|mapping| meets(mapping, at, size))
}

/// Whether no mapping has a byte of a range.
#[tactic(auto, unfolding(pr_parts::specs::AddressSpaces::is_free))]
pub fn is_free(mappings: &[Mapping], at: u64, size: u64) -> bool
    ensures { result ≡ is_free at size mappings.now }
{
    !is_met(mappings, at, size)
}

fn is_range(mapping: &Mapping, at: u64, size: u64) -> bool
    ensures { result ≡ is_range at size mapping.now }
{
    mapping.at() == at && mapping.size() == size
}

fn is_break_heap(mapping: &Mapping) -> bool
    ensures { result ≡ is_break_heap mapping.now }
{
    mapping.at() == HEAP_BASE && matches!(mapping.kind(), MappingKind::Heap)
}

/// The place of the mapping that is just this range.
pub fn place_of(mappings: &[Mapping], at: u64, size: u64) -> Option<usize>
    ensures { result ≡ position (is_range at size) mappings.now }
{
    mappings
        .iter()
        .position(|mapping| is_range(mapping, at, size))
}

/// The place of the first mapping that stands behind an address.
fn place_behind(mappings: &[Mapping], at: u64) -> Option<usize>
    ensures { result ≡ position (is_behind address_of at) mappings.now }
{
    mappings.iter().position(|mapping| mapping.at() > at)
}

/// The place of a mapping that is to begin at an address: before the first that stands behind it, or behind all.
#[tactic(auto, using(pr_parts::proofs::ByAddressLemmas::places))]
pub fn place_for(mappings: &[Mapping], at: u64) -> usize
    ensures value { result ≡ position_or_len (is_behind address_of at) mappings.now }
    ensures within { result ≤ length mappings.now }
{
    match place_behind(mappings, at) {
        Some(place) => place,
        None => mappings.len(),
    }
}

/// The place of the heap that the break ends.
pub fn heap_place(mappings: &[Mapping]) -> Option<usize>
    ensures { result ≡ position is_break_heap mappings.now }
{
    mappings.iter().position(|mapping| is_break_heap(mapping))
}

/// The heap that the break ends.
fn find_heap(mappings: &[Mapping]) -> Option<&Mapping>
    ensures { option_copied result ≡ find is_break_heap mappings.now }
{
    mappings.iter().find(|mapping| is_break_heap(mapping))
}

/// How many bytes the heap has.
#[tactic(auto, using(pr_parts::proofs::HeapLemmas::heaps))]
pub fn heap_bytes(mappings: &[Mapping]) -> u64
    ensures value { result ≡ heap_bytes mappings.now }
    ensures within { result ≤ mapped_size mappings.now }
{
    match find_heap(mappings) {
        Some(heap) => heap.size(),
        None => 0,
    }
}

/// How many bytes the heap has where the break stands at an address.
pub fn heap_size(end: u64) -> u64
    requires least { heap_base ≤ end }
    requires most { end ≤ break_limit }
    ensures value { result ≡ rounded (end - heap_base) }
    ensures within { heap_base + result ≤ break_limit }
{
    rounded(end - HEAP_BASE)
}
