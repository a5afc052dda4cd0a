ghost use Rattle.std.specs.Prelude.{⊤, ◌≡◌, [], ◌∷◌, codes};
ghost use Rattle.pr_num.specs.Flags.{known_bits-three};

use crate::flags::{FlagBits, KnownFlags, flag};
use bitflags::{Flag, Flags, bitflag_items};

/// The protection that running an instruction needs, as a word (mmap(2)).
pub const PROT_EXEC: u8 = 1;

/// The protection that a store needs.
pub const PROT_WRITE: u8 = 2;

/// The protection that a load needs.
pub const PROT_READ: u8 = 4;

/// Any bits of a word, also such as are no protection: what `bitflags` works on.
#[derive(Clone, Copy, Debug, PartialEq, Eq)]
pub struct ProtBits(u64);

bitflag_items! {
    impl ProtBits: u64 {
        const EXEC = 1;
        const WRITE = 2;
        const READ = 4;
    }
}

impl Flags for ProtBits {
    type Bits = u64;

    ghost exact = { ⊤ };

    ghost table = { (codes "EXEC", 1) ∷ (codes "WRITE", 2) ∷ (codes "READ", 4) ∷ [] };

    ghost set_of = { λ flags. flags.0 };

    fn flags<'a>() -> &'a [Flag<ProtBits>] {
        ProtBits::FLAGS
    }

    fn bits(&self) -> u64 {
        self.0
    }

    fn from_bits_retain(bits: u64) -> ProtBits {
        ProtBits(bits)
    }
}

impl FlagBits for ProtBits {
    ghost width = { 3 };

    ghost is_exact = { tt };

    ghost lowest = { known_bits-three _ _ _ };
}

/// What a mapping allows (mmap(2)). Seen by contracts as the word of its flags.
pub type Prot = KnownFlags<ProtBits>;

impl KnownFlags<ProtBits> {
    /// To run instructions (PROT_EXEC).
    pub const EXEC: Prot = flag!(ProtBits::EXEC);

    /// To write (PROT_WRITE).
    pub const WRITE: Prot = flag!(ProtBits::WRITE);

    /// To read (PROT_READ).
    pub const READ: Prot = flag!(ProtBits::READ);
}
