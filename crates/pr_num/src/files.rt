ghost use Rattle.std.specs.Prelude.{◌≡◌};
ghost use Rattle.pr_num.specs.Files.{access_number, fd_kind_number, fd_kind_of};

use crate::{Bytes, Name};

/// A file of the system.
#[derive(Drop)]
pub struct StoredFile {
    pub name: Name,
    /// At most 65,536 bytes.
    pub bytes: Bytes,
}

/// What an open file reads and writes.
#[derive(Clone, Copy, Debug, PartialEq, Eq)]
pub enum Target {
    /// The file at this place in the list of files.
    File(u32),
    /// The read end of the pipe at this place.
    PipeReader(u32),
    /// The write end of the pipe at this place.
    PipeWriter(u32),
}

/// What a descriptor stands for, as fstat(2) and the records of descriptors number it.
#[derive(Clone, Copy, Debug, PartialEq, Eq)]
pub enum FdKind {
    File = 1,
    /// The read end of a pipe.
    PipeReader = 2,
    /// The write end of a pipe.
    PipeWriter = 3,
}

impl FdKind {
    /// What a descriptor of this open file stands for.
    pub fn of(target: Target) -> FdKind
        ensures { result ≡ fd_kind_of target }
    {
        match target {
            Target::File(_) => FdKind::File,
            Target::PipeReader(_) => FdKind::PipeReader,
            Target::PipeWriter(_) => FdKind::PipeWriter,
        }
    }

    /// The number of the kind in a record of descriptors.
    pub fn number(self) -> u64
        ensures { result ≡ fd_kind_number self }
    {
        self as u64
    }
}

/// For what a file was opened (open(2)).
#[derive(Clone, Copy, Debug, PartialEq, Eq)]
pub enum Access {
    Read = 0,
    Write = 1,
    Both = 2,
}

impl Access {
    /// The number of the access: 0 to read, 1 to write, 2 for both (open(2)).
    pub fn number(self) -> u64
        ensures { result ≡ access_number self }
    {
        self as u64
    }
}

/// An open file: what dup and fork share of a descriptor, its offset among it (dup(2), fork(2)).
#[derive(Clone, Copy, Debug, PartialEq, Eq)]
pub struct OpenFile {
    pub target: Target,
    pub access: Access,
    /// Where the next read or write of a file begins; 0 for a pipe.
    pub offset: u64,
    /// How many descriptors stand for it, at least 1.
    pub users: u32,
}
