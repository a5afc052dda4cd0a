ghost use Rattle.std.specs.Prelude.{◌≡◌, ◌≤◌, ◌<◌, ◌+◌, ◌-◌, ◌%◌, ◌^◌, length, take, drop, IfOk, OnOk, OnErr};
ghost use Rattle.pr_num.specs.Layout.{page_size};
ghost use Rattle.pr_num.specs.Limits.{data_limit, mapping_limit};
ghost use Rattle.pr_num.specs.Programs.{whole_pages};
ghost use Rattle.pr_parts.specs.AddressSpaces.{resized, with_prot, with_written, zeros_at};

use crate::pages::Pages;
use pr_num::layout::rounded;
use pr_num::{MappingKind, NoMemory, PROT_READ, PROT_WRITE, Prot};
use std::alloc::Global;
use std::marker::Model;

// Single mappings: made, copied, protected, written and resized.

/// The word of the protections to read and to write.
pub const READ_WRITE: u8 = PROT_READ + PROT_WRITE;

/// The protections of a word.
pub fn prot_of(word: u8) -> Prot
    requires { word < 8 }
    ensures { result ≡ word }
{
    Prot::from_word(u64::from(word)).unwrap()
}

/// A mapping of an address space with its bytes, as many as it is long. A copy shares the bytes' pages.
#[derive(Drop)]
pub struct Mapping {
    at: u64,
    prot: Prot,
    kind: MappingKind,
    pages: Pages,
}

impl Model for Mapping {
    ghost use Rattle.pr_num.specs.declared.mappings.Mapping as value;

    ghost Value = { value.Mapping };

    ghost view = { λ mapping. record { at = mapping.at; prot = mapping.prot; kind = mapping.kind; bytes = mapping.pages } };
}

impl Mapping {
    /// A mapping of zero bytes.
    pub fn zeros_at(
        alloc: Global,
        at: u64,
        size: usize,
        prot: Prot,
        kind: MappingKind,
    ) -> Result<Mapping, NoMemory>
        requires { size ≤ mapping_limit }
        ensures { IfOk result (λ m. m ≡ zeros_at at size prot kind) }
    {
        let pages = Pages::zeros(alloc, size)?;
        Ok(Mapping {
            at,
            prot,
            kind,
            pages,
        })
    }

    /// A mapping of these bytes, with zeros up to whole pages behind them.
    pub fn of_bytes(
        alloc: Global,
        at: u64,
        prot: Prot,
        kind: MappingKind,
        bytes: &[u8],
    ) -> Result<Mapping, NoMemory>
        requires size { length bytes.now ≤ data_limit }
        requires end { at + length bytes.now < 2 ^ 64 }
        ensures { IfOk result (λ m. m ≡ record { at = at; prot = prot; kind = kind; bytes = whole_pages bytes.now }) }
    {
        let mut pages = Pages::zeros(alloc, rounded(bytes.len() as u64) as usize)?;
        pages.write(alloc, at, at, bytes)?;
        Ok(Mapping {
            at,
            prot,
            kind,
            pages,
        })
    }

    /// The address of its first byte.
    pub fn at(&self) -> u64
        ensures { result ≡ self.now.at }
    {
        self.at
    }

    /// What may be done with its bytes.
    pub fn prot(&self) -> Prot
        ensures { result ≡ self.now.prot }
    {
        self.prot
    }

    /// What it is for.
    pub fn kind(&self) -> MappingKind
        ensures { result ≡ self.now.kind }
    {
        self.kind
    }

    /// How many bytes it has, at most 1 MiB.
    pub fn size(&self) -> u64
        ensures value { result ≡ length self.now.bytes }
        ensures limit { result ≤ mapping_limit }
    {
        self.pages.len() as u64
    }

    /// The bytes from an address in it on, to the end of the page of that address.
    pub fn run(&self, address: u64) -> &[u8]
        requires low { self.now.at ≤ address }
        requires high { address < self.now.at + length self.now.bytes }
        ensures { result.now
            ≡ take (page_size - (address - self.now.at) % page_size) (drop (address - self.now.at) self.now.bytes) }
    {
        self.pages.run((address - self.at) as usize)
    }

    /// Writes what it has of a range of bytes; where memory runs out it stays as it is.
    #[tactic(auto, unfolding(pr_parts::specs::AddressSpaces::with_written))]
    pub fn write(&mut self, alloc: Global, at: u64, bytes: &[u8]) -> Result<(), NoMemory>
        requires { at + length bytes.now < 2 ^ 64 }
        ensures ok { OnOk result (self.new ≡ with_written at bytes.now self.old) }
        ensures err { OnErr result (self.new ≡ self.old) }
    {
        self.pages.write(alloc, self.at, at, bytes)
    }

    /// Lets it allow this, in place of what it allowed (mprotect(2)). Takes no memory.
    #[tactic(auto, unfolding(pr_parts::specs::AddressSpaces::with_prot))]
    pub fn set_prot(&mut self, prot: Prot)
        ensures { self.new ≡ with_prot prot self.old }
    {
        self.prot = prot;
    }

    /// Cuts it off, or lets it grow by zeros, to so many bytes; where memory runs out it stays as it is.
    #[tactic(auto, unfolding(pr_parts::specs::AddressSpaces::resized))]
    pub fn resize(&mut self, alloc: Global, size: usize) -> Result<(), NoMemory>
        requires { size ≤ mapping_limit }
        ensures ok { OnOk result (self.new ≡ resized size self.old) }
        ensures err { OnErr result (self.new ≡ self.old) }
    {
        self.pages.resize(alloc, size)
    }

    /// The same mapping, which shares its pages with this one.
    pub fn copy(&self, alloc: Global) -> Result<Mapping, NoMemory>
        ensures { IfOk result (λ copy. copy ≡ self.now) }
    {
        Ok(Mapping {
            at: self.at,
            prot: self.prot,
            kind: self.kind,
            pages: self.pages.copy(alloc)?,
        })
    }
}
