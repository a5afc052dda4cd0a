use pr_num::{BadByte, NoMemory};
use thiserror::Error;

/// A mapping that is asked for.
#[derive(Clone, Copy, Debug, PartialEq, Eq)]
pub struct Map {
    /// The address of its first byte.
    pub at: u64,
    /// How many bytes it has.
    pub size: u64,
    /// What may be done with them: 4 to read, 2 to write, 1 to run, or a sum of these.
    pub prot: u8,
    /// What it is for: 1 text, 2 data, 3 heap, 4 stack, 5 what mmap(2) made.
    pub kind: u8,
}

/// Why a call on an address space is refused.
#[derive(Clone, Copy, Debug, PartialEq, Eq, Error)]
pub enum MemFault {
    /// No mapping has the byte at this address, or is the range that begins there.
    #[error("nothing is mapped at {at:#x}")]
    Hole { at: u64 },
    /// The mapping of the byte at this address does not allow the access.
    #[error("the access is not allowed at {at:#x}")]
    NotAllowed { at: u64 },
    /// A mapping stands there.
    #[error("a mapping stands there")]
    Overlap,
    /// More than 1 MiB would be mapped.
    #[error("more than 1 MiB would be mapped")]
    TooBig,
    #[error("out of memory")]
    NoMemory,
}

impl From<NoMemory> for MemFault {
    ghost use Rattle.std.specs.Prelude.{◌≡◌};
    ghost use Rattle.pr_mem.specs.declared.faults.MemFault.TheVariants as variants;

    ghost from_gives = { λ _ e. e ≡ variants.NoMemory };

    fn from(_error: NoMemory) -> MemFault {
        MemFault::NoMemory
    }
}

impl From<BadByte> for MemFault {
    ghost use Rattle.std.specs.Prelude.{◌≡◌};
    ghost use Rattle.pr_mem.specs.Answers.{fault_of};

    ghost from_gives = { λ bad e. e ≡ fault_of bad };

    fn from(bad: BadByte) -> MemFault {
        match bad {
            BadByte::Hole(at) => MemFault::Hole { at },
            BadByte::NotAllowed(at) => MemFault::NotAllowed { at },
        }
    }
}
