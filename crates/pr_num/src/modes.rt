ghost use Rattle.std.specs.Prelude.{⊤, ◌≡◌, [], ◌∷◌, codes};
ghost use Rattle.pr_num.specs.Flags.{known_bits-four};

use crate::flags::{FlagBits, KnownFlags, flag};
use bitflags::{Flag, Flags, bitflag_items};

/// Any bits of a word, also such as are no mode: what `bitflags` works on.
#[derive(Clone, Copy, Debug, PartialEq, Eq)]
pub struct ModeBits(u64);

bitflag_items! {
    impl ModeBits: u64 {
        const FORK = 1;
        const RLC = 2;
        const KLC = 4;
        const ASYNC = 8;
    }
}

impl Flags for ModeBits {
    type Bits = u64;

    ghost exact = { ⊤ };

    ghost table = { (codes "FORK", 1) ∷ (codes "RLC", 2) ∷ (codes "KLC", 4) ∷ (codes "ASYNC", 8) ∷ [] };

    ghost set_of = { λ flags. flags.0 };

    fn flags<'a>() -> &'a [Flag<ModeBits>] {
        ModeBits::FLAGS
    }

    fn bits(&self) -> u64 {
        self.0
    }

    fn from_bits_retain(bits: u64) -> ModeBits {
        ModeBits(bits)
    }
}

impl FlagBits for ModeBits {
    ghost width = { 4 };

    ghost is_exact = { tt };

    ghost lowest = { known_bits-four _ _ _ _ };
}

/// The modes of a traced process (proc(4), "PCSET"). Seen by contracts as the word of its flags.
pub type Modes = KnownFlags<ModeBits>;

impl KnownFlags<ModeBits> {
    /// A child is traced too, with the same sets (PR_FORK).
    pub const FORK: Modes = flag!(ModeBits::FORK);

    /// The process runs when its last writable file is closed (PR_RLC).
    pub const RLC: Modes = flag!(ModeBits::RLC);

    /// The process is killed when its last writable file is closed (PR_KLC).
    pub const KLC: Modes = flag!(ModeBits::KLC);

    /// A stop of one lwp leaves the others running (PR_ASYNC).
    pub const ASYNC: Modes = flag!(ModeBits::ASYNC);
}
