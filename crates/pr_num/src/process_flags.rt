ghost use Rattle.std.specs.Prelude.{⊤, ◌≡◌, [], ◌∷◌, codes};
ghost use Rattle.pr_num.specs.Flags.{known_bits-six};

use crate::flags::{FlagBits, KnownFlags, flag};
use bitflags::{Flag, Flags, bitflag_items};

/// Any bits of a word, also such as are no flag of a process: what `bitflags` works on.
#[derive(Clone, Copy, Debug, PartialEq, Eq)]
pub struct ProcessBits(u64);

bitflag_items! {
    impl ProcessBits: u64 {
        const FORK = 1;
        const RLC = 2;
        const KLC = 4;
        const ASYNC = 8;
        const ISSYS = 16;
        const VFORKP = 32;
    }
}

impl Flags for ProcessBits {
    type Bits = u64;

    ghost exact = { ⊤ };

    ghost table = { (codes "FORK", 1) ∷ (codes "RLC", 2) ∷ (codes "KLC", 4)
        ∷ (codes "ASYNC", 8) ∷ (codes "ISSYS", 16) ∷ (codes "VFORKP", 32) ∷ [] };

    ghost set_of = { λ flags. flags.0 };

    fn flags<'a>() -> &'a [Flag<ProcessBits>] {
        ProcessBits::FLAGS
    }

    fn bits(&self) -> u64 {
        self.0
    }

    fn from_bits_retain(bits: u64) -> ProcessBits {
        ProcessBits(bits)
    }
}

impl FlagBits for ProcessBits {
    ghost width = { 6 };

    ghost is_exact = { tt };

    ghost lowest = { known_bits-six _ _ _ _ _ _ };
}

/// What a process is and how it is traced (proc(4), "status"). Seen by contracts as the word of its flags, whose
/// numbers are this project's own.
pub type ProcessFlags = KnownFlags<ProcessBits>;

impl KnownFlags<ProcessBits> {
    /// A child is traced too, with the same sets (PR_FORK).
    pub const FORK: ProcessFlags = flag!(ProcessBits::FORK);

    /// The process runs when its last writable file is closed (PR_RLC).
    pub const RLC: ProcessFlags = flag!(ProcessBits::RLC);

    /// The process is killed when its last writable file is closed (PR_KLC).
    pub const KLC: ProcessFlags = flag!(ProcessBits::KLC);

    /// A stop of one lwp leaves the others running (PR_ASYNC).
    pub const ASYNC: ProcessFlags = flag!(ProcessBits::ASYNC);

    /// It is the system process (PR_ISSYS).
    pub const ISSYS: ProcessFlags = flag!(ProcessBits::ISSYS);

    /// It has lent its address space to a child (PR_VFORKP).
    pub const VFORKP: ProcessFlags = flag!(ProcessBits::VFORKP);
}
