ghost use Rattle.std.specs.Prelude.{◌≡◌, ◌≤◌, ◌<◌, ◌+◌, ◌^◌, length, map, IfOk, OnOk, OnErr};
ghost use Rattle.std.specs.Arc.{arc_value};
ghost use Rattle.pr_parts.specs.AddressSpaces.{written_bytes};
ghost use Rattle.pr_mem.specs.Pages.{written_pages};

use pr_num::NoMemory;
use std::alloc::Global;
use std::sync::Arc;

// Bytes are written over pages. A page that has other owners is copied before, so that these keep theirs as it was; and
// all copies are made before the first byte changes.

/// The bytes of a page.
pub const PAGE: usize = 4_096;

/// A page, which may have several owners.
pub type Page = Arc<[u8; PAGE], Global>;

/// Writes a range of bytes over those that stand from the address `first` on, as far as these reach.
fn write_part(old: &mut [u8], first: u64, at: u64, bytes: &[u8])
    requires { at + length bytes.now < 2 ^ 64 }
    ensures { old.new ≡ written_bytes at bytes.now first old.old }
{
    let start = at.max(first);
    let end = (at + bytes.len() as u64).min(first.saturating_add(old.len() as u64));
    if start < end {
        let part = &bytes[(start - at) as usize..(end - at) as usize];
        old[(start - first) as usize..(end - first) as usize].copy_from_slice(part);
    }
}

/// A page that stands from the address `first` on, with a range of bytes written over it.
fn written_page(page: &[u8; PAGE], first: u64, at: u64, bytes: &[u8]) -> [u8; PAGE]
    requires { at + length bytes.now < 2 ^ 64 }
    ensures { result ≡ written_bytes at bytes.now first page.now }
{
    let mut page = *page;
    write_part(&mut page, first, at, bytes);
    page
}

/// The same in memory of its own. It stands apart from the walk over the pages, which has no page in place then and
/// begins at once.
fn copied_page(
    page: &[u8; PAGE],
    alloc: Global,
    first: u64,
    at: u64,
    bytes: &[u8],
) -> Result<Page, NoMemory>
    requires { at + length bytes.now < 2 ^ 64 }
    ensures { IfOk result (λ copy. arc_value copy ≡ written_bytes at bytes.now first page.now) }
{
    let copy = Arc::new(alloc, written_page(page, first, at, bytes))?;
    Ok(copy)
}

/// Writes a range of bytes over pages that stand from the address `first` on, as far as these reach. Where memory runs
/// out they stay as they are.
#[tactic(auto, using(crate::proofs::PageLemmas::page_writes))]
pub fn write_pages(
    pages: &mut [Page],
    alloc: Global,
    first: u64,
    at: u64,
    bytes: &[u8],
) -> Result<(), NoMemory>
    requires { at + length bytes.now < 2 ^ 64 }
    ensures ok { OnOk result (map arc_value pages.new ≡ written_pages at bytes.now first (map arc_value pages.old)) }
    ensures err { OnErr result (map arc_value pages.new ≡ map arc_value pages.old) }
{
    if first >= at + bytes.len() as u64 {
        return Ok(());
    }
    let Some((page, more)) = pages.split_first_mut() else {
        return Ok(());
    };
    let next = first.saturating_add(PAGE as u64);
    match Arc::get_mut(page) {
        Some(own) => {
            write_pages(more, alloc, next, at, bytes)?;
            write_part(own, first, at, bytes);
            Ok(())
        }
        None => {
            let copy = copied_page(page, alloc, first, at, bytes)?;
            write_pages(more, alloc, next, at, bytes)?;
            *page = copy;
            Ok(())
        }
    }
}
