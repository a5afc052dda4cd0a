use pr_num::{Name, NoMemory};
use thiserror::Error;

/// Why a call on files gives no value, with the errno that it stands for (Intro(2)).
#[derive(Clone, Copy, Debug, PartialEq, Eq, Error)]
pub enum FileNo {
    /// The descriptor is not open, or not for that direction (`EBADF`).
    #[error("the descriptor is not open for this")]
    BadFd,
    /// No file has that name (`ENOENT`).
    #[error("no file has that name")]
    NoFile,
    /// Too few of the process's descriptors are free (`EMFILE`).
    #[error("too few descriptors are free")]
    NoPlace,
    /// There are as many files, or as many pipes, as there can be (`ENFILE`).
    #[error("there are as many files or pipes as there can be")]
    TableFull,
    /// The file would be longer than a file can be (`ENOSPC`).
    #[error("the file would be too long")]
    NoSpace,
    /// A pipe has no offset (`ESPIPE`).
    #[error("a pipe has no offset")]
    NotSeekable,
    /// The offset is beyond the longest file (`EINVAL`).
    #[error("the offset is beyond the longest file")]
    BadOffset,
    /// Nothing can read the pipe any more (`EPIPE`).
    #[error("nothing can read the pipe")]
    NoReader,
    /// The call has to wait: the pipe is empty, or has no room for all that is written.
    #[error("the call has to wait")]
    Sleep,
    /// Memory ran out.
    #[error("out of memory")]
    NoMemory,
}

impl From<NoMemory> for FileNo {
    ghost use Rattle.std.specs.Prelude.{◌≡◌};
    ghost use Rattle.pr_parts.specs.declared.files.FileNo.TheVariants as variants;

    ghost from_gives = { λ _ e. e ≡ variants.NoMemory };

    fn from(_error: NoMemory) -> FileNo {
        FileNo::NoMemory
    }
}

/// What an open descriptor stands for (stat(2)).
#[derive(Clone, Copy, Debug, PartialEq, Eq)]
pub struct Stat {
    /// 1 for a file, 2 for the read end of a pipe, 3 for its write end.
    pub kind: u64,
    /// 0 where it is open for reading, 1 for writing, 2 for both.
    pub mode: u64,
    /// How many bytes the file or the pipe has.
    pub size: u64,
    /// Where the next read or write of a file begins; 0 for a pipe.
    pub offset: u64,
    /// The file's name; a pipe has none.
    pub name: Option<Name>,
}
