ghost use Rattle.std.specs.Prelude.{◌≡◌, ◌≤◌, ◌<◌, ◌+◌, ◌-◌, ◌*◌, ◌%◌, ◌^◌, ◌++◌, length, take, drop, map, replicate, IfOk, OnOk, OnErr};
ghost use Rattle.std.specs.Arc.{arc_value};
ghost use Rattle.std.specs.List.{concat};
ghost use Rattle.pr_num.specs.Layout.{page_size};
ghost use Rattle.pr_num.specs.Limits.{mapping_limit};
ghost use Rattle.pr_num.specs.Programs.{rounded};
ghost use Rattle.pr_parts.specs.AddressSpaces.{written_bytes};
ghost use Rattle.pr_mem.specs.Pages.{AreWhole, written_pages};

use crate::page_writes::{PAGE, Page, write_pages};
use pr_num::NoMemory;
use std::alloc::Global;
use std::marker::Model;
use std::sync::Arc;

/// How many pages so many bytes have.
fn page_count(size: usize) -> usize
    requires { size ≤ mapping_limit }
    ensures { result * page_size ≡ rounded size }
{
    (size + (PAGE - 1)) / PAGE
}

/// So many pages of zero bytes, all of which share their memory.
fn zero_pages(alloc: Global, count: usize) -> Result<Vec<Page>, NoMemory>
    ensures { IfOk result (λ pages. map arc_value pages.items ≡ replicate count (replicate page_size 0)) }
{
    let mut pages = Vec::new(alloc);
    let zeros = Arc::new(alloc, [0; PAGE])?;
    for _ in 0..count {
        pages.push(Arc::try_clone(&zeros)?)?;
    }
    Ok(pages)
}

/// The same pages, which share their memory with these.
fn shared(alloc: Global, pages: &[Page]) -> Result<Vec<Page>, NoMemory>
    ensures { IfOk result (λ shared. map arc_value shared.items ≡ map arc_value pages.now) }
{
    let mut shared = Vec::new(alloc);
    for page in pages {
        shared.push(Arc::try_clone(page)?)?;
    }
    Ok(shared)
}

/// Writes a range of bytes over pages that stand from the address `first` on. Those before the first byte are passed
/// over.
fn write_behind(
    pages: &mut [Page],
    alloc: Global,
    first: u64,
    at: u64,
    bytes: &[u8],
) -> Result<(), NoMemory>
    requires end { at + length bytes.now < 2 ^ 64 }
    requires whole { AreWhole (map arc_value pages.old) }
    ensures ok { OnOk result (map arc_value pages.new ≡ written_pages at bytes.now first (map arc_value pages.old)) }
    ensures err { OnErr result (map arc_value pages.new ≡ map arc_value pages.old) }
{
    let passed = (at.saturating_sub(first) / PAGE as u64).min(pages.len() as u64);
    let next = first + passed * PAGE as u64;
    write_pages(&mut pages[passed as usize..], alloc, next, at, bytes)
}

/// The same of a vector of pages.
fn write_from(
    pages: &mut Vec<Page>,
    alloc: Global,
    first: u64,
    at: u64,
    bytes: &[u8],
) -> Result<(), NoMemory>
    requires end { at + length bytes.now < 2 ^ 64 }
    requires whole { AreWhole (map arc_value pages.old.items) }
    ensures ok { OnOk result
        (map arc_value pages.new.items ≡ written_pages at bytes.now first (map arc_value pages.old.items)) }
    ensures err { OnErr result (map arc_value pages.new.items ≡ map arc_value pages.old.items) }
{
    write_behind(pages, alloc, first, at, bytes)
}

/// Writes zeros over the bytes of pages from a place in the last of them on.
fn clear_from(pages: &mut Vec<Page>, alloc: Global, from: usize) -> Result<(), NoMemory>
    requires whole { AreWhole (map arc_value pages.old.items) }
    requires within { from ≤ length pages.old.items * page_size }
    requires last { length pages.old.items * page_size < from + page_size }
    requires limit { from ≤ mapping_limit }
    ensures ok { OnOk result
        (map arc_value pages.new.items
        ≡ written_pages from (replicate (length pages.old.items * page_size - from) 0) 0
        (map arc_value pages.old.items)) }
    ensures err { OnErr result (map arc_value pages.new.items ≡ map arc_value pages.old.items) }
{
    let count = pages.len() * PAGE - from;
    let zeros = [0; PAGE];
    write_from(pages, alloc, 0, from as u64, &zeros[..count])
}

/// Puts pages of zeros behind these, so that there are so many.
fn grow(pages: &mut Vec<Page>, alloc: Global, count: usize) -> Result<(), NoMemory>
    requires { length pages.old.items ≤ count }
    ensures ok { OnOk result
        (map arc_value pages.new.items
        ≡ map arc_value pages.old.items ++ replicate (count - length pages.old.items) (replicate page_size 0)) }
    ensures err { OnErr result (map arc_value pages.new.items ≡ map arc_value pages.old.items) }
{
    let mut zeros = zero_pages(alloc, count - pages.len())?;
    pages.append(&mut zeros)?;
    Ok(())
}

/// The bytes of pages from a place on, to the end of the page that has it.
fn run_in(pages: &[Page], from: usize) -> &[u8]
    requires whole { AreWhole (map arc_value pages.now) }
    requires within { from < length pages.now * page_size }
    ensures { result.now ≡ take (page_size - from % page_size) (drop from (concat (map arc_value pages.now))) }
{
    let page: &[u8; PAGE] = &pages[from / PAGE];
    &page[from % PAGE..]
}

/// Bytes in pages of 4,096, seen by contracts as the list of the bytes. A copy shares the pages, until one of the two
/// is written to.
#[derive(Drop)]
pub struct Pages {
    pages: Vec<Page>,
    size: usize,
}

impl Model for Pages {
    ghost use Rattle.std.specs.Prelude.{List, ℕ, map};
    ghost use Rattle.std.specs.Arc.{arc_value};
    ghost use Rattle.pr_mem.specs.Pages.{AreOf, bytes_of};

    ghost Value = { List ℕ };

    ghost view = { λ pages. bytes_of pages.size (map arc_value pages.pages.items) };

    ghost invariant = { λ pages. AreOf pages.size (map arc_value pages.pages.items) };
}

impl Pages {
    /// So many zero bytes.
    pub fn zeros(alloc: Global, size: usize) -> Result<Pages, NoMemory>
        requires { size ≤ mapping_limit }
        ensures { IfOk result (λ pages. pages ≡ replicate size 0) }
    {
        let pages = zero_pages(alloc, page_count(size))?;
        Ok(Pages { pages, size })
    }

    /// How many bytes there are, at most 1 MiB.
    pub fn len(&self) -> usize
        ensures value { result ≡ length self.now }
        ensures limit { result ≤ mapping_limit }
    {
        self.size
    }

    /// The bytes from a place on, to the end of its page.
    pub fn run(&self, from: usize) -> &[u8]
        requires { from < length self.now }
        ensures { result.now ≡ take (page_size - from % page_size) (drop from self.now) }
    {
        let run = run_in(&self.pages, from);
        &run[..run.len().min(self.size - from)]
    }

    /// Writes a range of bytes over these, which stand from the address `first` on, as far as they reach. Where memory
    /// runs out they stay as they are.
    pub fn write(
        &mut self,
        alloc: Global,
        first: u64,
        at: u64,
        bytes: &[u8],
    ) -> Result<(), NoMemory>
        requires { at + length bytes.now < 2 ^ 64 }
        ensures ok { OnOk result (self.new ≡ written_bytes at bytes.now first self.old) }
        ensures err { OnErr result (self.new ≡ self.old) }
    {
        write_from(&mut self.pages, alloc, first, at, bytes)
    }

    /// Cuts the bytes off, or lets them grow by zeros, to so many; where memory runs out they stay as they are.
    pub fn resize(&mut self, alloc: Global, size: usize) -> Result<(), NoMemory>
        requires { size ≤ mapping_limit }
        ensures ok { OnOk result (self.new ≡ take size self.old ++ replicate (size - length self.old) 0) }
        ensures err { OnErr result (self.new ≡ self.old) }
    {
        if self.size < size {
            self.grow(alloc, size)
        } else {
            self.cut(size);
            Ok(())
        }
    }

    /// The same bytes, which share their pages with these.
    pub fn copy(&self, alloc: Global) -> Result<Pages, NoMemory>
        ensures { IfOk result (λ copy. copy ≡ self.now) }
    {
        let pages = shared(alloc, &self.pages)?;
        Ok(Pages {
            pages,
            size: self.size,
        })
    }

    fn cut(&mut self, size: usize)
        requires { size ≤ length self.old }
        ensures { self.new ≡ take size self.old ++ replicate (size - length self.old) 0 }
    {
        self.pages.truncate(page_count(size));
        self.size = size;
    }

    fn grow(&mut self, alloc: Global, size: usize) -> Result<(), NoMemory>
        requires more { length self.old ≤ size }
        requires limit { size ≤ mapping_limit }
        ensures ok { OnOk result (self.new ≡ take size self.old ++ replicate (size - length self.old) 0) }
        ensures err { OnErr result (self.new ≡ self.old) }
    {
        clear_from(&mut self.pages, alloc, self.size)?;
        grow(&mut self.pages, alloc, page_count(size))?;
        self.size = size;
        Ok(())
    }
}
