ghost use Rattle.std.specs.Prelude.{◌≡◌, ◌++◌, ◌<◌, ◌^◌, OnOk};
ghost use Rattle.std.specs.List.{All};
ghost use Rattle.pr_num.specs.Limits.{descriptor_limit};
ghost use Rattle.pr_num.specs.Words.{IsWord, words_bytes};
ghost use Rattle.pr_rec.specs.InRange.{IsInfo, IsNameField, IsLwpStatus, IsMapEntry, IsWatchEntry, IsFdEntry, IsListEntry};
ghost use Rattle.pr_rec.specs.RecordWords.{lwpstatus_words_of, map_entry_words_of, watch_entry_words_of, fd_entry_words_of, list_entry_words_of};

use crate::fields::name_words;
use crate::{Descriptor, LwpStatus, MapEntry};
use pr_codec::push_word;
use pr_num::{Access, FdKind, NoMemory, WatchFlags};

/// A watched area (proc(4), "watch").
#[derive(Clone, Copy, Debug, PartialEq, Eq)]
pub struct WatchEntry {
    /// The address of its first byte.
    pub at: u64,
    /// How many bytes it has.
    pub size: u64,
    /// The accesses that are watched, and whether they trap after the access.
    pub flags: WatchFlags,
}

/// An open descriptor of a process.
#[derive(Clone, Copy, Debug, PartialEq, Eq)]
pub struct FdEntry {
    pub descriptor: Descriptor,
    pub kind: FdKind,
    pub access: Access,
    /// Where the next read or write of a file begins.
    pub offset: u64,
    /// The file's name, with zeros after it, and zeros for a pipe.
    pub name: [u8; 32],
}

/// A process in the list of processes.
#[derive(Clone, Copy, Debug, PartialEq, Eq)]
pub struct ListEntry {
    pub id: u32,
    /// The parent's id, 0 where it has none.
    pub parent: u32,
    /// The name of its program, with zeros after it.
    pub program: [u8; 32],
}

impl WatchEntry {
    fn words(&self) -> [u64; 3]
        ensures words { result ≡ watch_entry_words_of self.now }
        ensures flags { self.now.flags < 16 }
    {
        [self.at, self.size, self.flags.word()]
    }
}

impl FdEntry {
    fn words(&self) -> [u64; 8]
        ensures words { result ≡ fd_entry_words_of self.now }
        ensures descriptor { self.now.descriptor < descriptor_limit }
        ensures name { IsNameField self.now.name }
    {
        let name = name_words(&self.name);
        [
            u64::from(self.descriptor.number()),
            self.kind.number(),
            self.access.number(),
            self.offset,
            name[0],
            name[1],
            name[2],
            name[3],
        ]
    }
}

impl ListEntry {
    fn words(&self) -> [u64; 6]
        ensures words { result ≡ list_entry_words_of self.now }
        ensures id { self.now.id < 2 ^ 32 }
        ensures parent { self.now.parent < 2 ^ 32 }
        ensures name { IsNameField self.now.program }
    {
        let program = name_words(&self.program);
        [
            u64::from(self.id),
            u64::from(self.parent),
            program[0],
            program[1],
            program[2],
            program[3],
        ]
    }
}

/// An entry of a record that is a list.
pub(crate) trait Entry {
    ghost use Rattle.std.specs.Prelude.{ℕ, List};

    ghost words: { Self → List ℕ };

    // That its fields are in their ranges.
    ghost is_ranged: { Self → Type 0 };

    /// Adds the words of the entry.
    fn append(&self, out: &mut Vec<u8>) -> Result<(), NoMemory>
        ensures bytes { OnOk result (out.new.items ≡ out.old.items ++ words_bytes (words self.now)) }
        ensures ranged { is_ranged self.now };
}

impl Entry for LwpStatus {
    ghost words = { lwpstatus_words_of };

    ghost is_ranged = { λ l. IsInfo l.info → IsLwpStatus l };

    fn append(&self, out: &mut Vec<u8>) -> Result<(), NoMemory> {
        append_words(out, &self.words())
    }
}

impl Entry for MapEntry {
    ghost words = { map_entry_words_of };

    ghost is_ranged = { IsMapEntry };

    fn append(&self, out: &mut Vec<u8>) -> Result<(), NoMemory> {
        append_words(out, &self.words())
    }
}

impl Entry for WatchEntry {
    ghost words = { watch_entry_words_of };

    ghost is_ranged = { IsWatchEntry };

    fn append(&self, out: &mut Vec<u8>) -> Result<(), NoMemory> {
        append_words(out, &self.words())
    }
}

impl Entry for FdEntry {
    ghost words = { fd_entry_words_of };

    ghost is_ranged = { IsFdEntry };

    fn append(&self, out: &mut Vec<u8>) -> Result<(), NoMemory> {
        append_words(out, &self.words())
    }
}

impl Entry for ListEntry {
    ghost words = { list_entry_words_of };

    ghost is_ranged = { IsListEntry };

    fn append(&self, out: &mut Vec<u8>) -> Result<(), NoMemory> {
        append_words(out, &self.words())
    }
}

/// Adds words to a record.
pub(crate) fn append_words(out: &mut Vec<u8>, words: &[u64]) -> Result<(), NoMemory>
    ensures bytes { OnOk result (out.new.items ≡ out.old.items ++ words_bytes words.now) }
    ensures words { All IsWord words.now }
{
    for word in words {
        push_word(out, *word)?;
    }
    Ok(())
}
