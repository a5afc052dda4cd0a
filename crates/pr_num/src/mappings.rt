ghost use Rattle.std.specs.Prelude.{◌≡◌};
ghost use Rattle.pr_num.specs.Spaces.{kind_number, kind_of_number};

use crate::{Bytes, Prot, WatchFlags};

/// What a mapping is for, with numbers of this project's own.
#[derive(Clone, Copy, Debug, PartialEq, Eq)]
pub enum MappingKind {
    /// The instructions of the program.
    Text = 1,
    /// The data of the program.
    Data = 2,
    /// What brk(2) moves the end of.
    Heap = 3,
    Stack = 4,
    /// What mmap(2) made.
    Mapped = 5,
}

impl MappingKind {
    /// The kind of a number, `None` exactly where it is not 1 to 5.
    pub fn from_number(n: u64) -> Option<MappingKind>
        ensures { result ≡ kind_of_number n }
    {
        match n {
            1 => Some(MappingKind::Text),
            2 => Some(MappingKind::Data),
            3 => Some(MappingKind::Heap),
            4 => Some(MappingKind::Stack),
            5 => Some(MappingKind::Mapped),
            _ => None,
        }
    }

    /// The kind's number, 1 to 5.
    #[tactic(auto, unfolding(crate::specs::Spaces::kind_number))]
    pub fn number(self) -> u64
        ensures { result ≡ kind_number self }
    {
        self as u64
    }
}

/// A mapping of an address space with its bytes, as many as it is long.
#[derive(Drop)]
pub struct Mapping {
    /// The address of its first byte, a multiple of 4,096.
    pub at: u64,
    /// What may be done with its bytes.
    pub prot: Prot,
    pub kind: MappingKind,
    pub bytes: Bytes,
}

/// A watched area: an access to one of its bytes that the flags name incurs FLTWATCH (proc(4), "PCWATCH").
#[derive(Clone, Copy, Debug, PartialEq, Eq)]
pub struct Area {
    /// The address of its first byte.
    pub at: u64,
    /// Its bytes, at least 1.
    pub size: u64,
    /// The accesses that are watched, and whether they trap after the access in place of before it.
    pub flags: WatchFlags,
}

/// The byte at which an access to memory fails.
#[derive(Clone, Copy, Debug, PartialEq, Eq)]
pub enum BadByte {
    /// No mapping has the byte at this address.
    Hole(u64),
    /// The mapping of the byte at this address does not allow the access.
    NotAllowed(u64),
}
