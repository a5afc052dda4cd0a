ghost use Rattle.std.specs.Prelude.{◌≡◌, ◌≤◌, None};
ghost use Rattle.pr_num.specs.Layout.{gap_base, stack_base};
ghost use Rattle.pr_num.specs.Spaces.{IsSpace};
ghost use Rattle.pr_parts.specs.AddressSpaces.{gap_in};
ghost use Rattle.pr_mem.specs.Gaps.{moved_behind, moved_past};

use crate::mappings::Mapping;
use crate::ranges;
use pr_num::layout::{GAP_BASE, STACK_BASE, rounded};

// The least gap: an address is moved behind each mapping in its way.

/// An address, or that of the first page behind a mapping that a range of this size from there meets.
#[tactic(auto, unfolding(crate::specs::Gaps::moved_behind))]
fn move_behind(mapping: &Mapping, at: u64, size: u64) -> u64
    requires { at ≤ stack_base }
    ensures value { result ≡ moved_behind size at mapping.now }
    ensures limit { result ≤ stack_base }
{
    if ranges::meets(mapping, at, size) {
        let end = mapping.at().saturating_add(mapping.size());
        rounded(end.min(STACK_BASE))
    } else {
        at
    }
}

/// An address, moved behind each mapping that is in its way.
fn move_past(mappings: &[Mapping], at: u64, size: u64) -> u64
    requires { at ≤ stack_base }
    ensures value { result ≡ moved_past size at mappings.now }
    ensures limit { result ≤ stack_base }
{
    let mut at = at;
    for mapping in mappings {
        at = move_behind(mapping, at, size);
    }
    at
}

/// The least address of a page from `GAP_BASE` on at which a mapping of this size meets none and ends before the stack.
#[tactic(auto, using(crate::proofs::GapLemmas::gaps))]
pub fn gap(mappings: &[Mapping], size: u64) -> Option<u64>
    requires { IsSpace mappings.now }
    ensures { result ≡ gap_in size mappings.now }
{
    if size >= STACK_BASE {
        return None;
    }
    let at = move_past(mappings, GAP_BASE, size);
    if at + size < STACK_BASE {
        Some(at)
    } else {
        None
    }
}
