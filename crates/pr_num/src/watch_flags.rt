ghost use Rattle.std.specs.Prelude.{⊤, ◌≡◌, [], ◌∷◌, codes};
ghost use Rattle.pr_num.specs.Flags.{known_bits-four};

use crate::flags::{FlagBits, KnownFlags, flag};
use bitflags::{Flag, Flags, bitflag_items};

/// Any bits of a word, also such as are no watch flag: what `bitflags` works on.
#[derive(Clone, Copy, Debug, PartialEq, Eq)]
pub struct WatchBits(u64);

bitflag_items! {
    impl WatchBits: u64 {
        const READ = 1;
        const WRITE = 2;
        const EXEC = 4;
        const TRAPAFTER = 8;
    }
}

impl Flags for WatchBits {
    type Bits = u64;

    ghost exact = { ⊤ };

    ghost table = { (codes "READ", 1) ∷ (codes "WRITE", 2) ∷ (codes "EXEC", 4) ∷ (codes "TRAPAFTER", 8) ∷ [] };

    ghost set_of = { λ flags. flags.0 };

    fn flags<'a>() -> &'a [Flag<WatchBits>] {
        WatchBits::FLAGS
    }

    fn bits(&self) -> u64 {
        self.0
    }

    fn from_bits_retain(bits: u64) -> WatchBits {
        WatchBits(bits)
    }
}

impl FlagBits for WatchBits {
    ghost width = { 4 };

    ghost is_exact = { tt };

    ghost lowest = { known_bits-four _ _ _ _ };
}

/// What a watched area stops at (proc(4), "PCWATCH"). Seen by contracts as the word of its flags.
pub type WatchFlags = KnownFlags<WatchBits>;

impl KnownFlags<WatchBits> {
    /// A read (WA_READ).
    pub const READ: WatchFlags = flag!(WatchBits::READ);

    /// A write (WA_WRITE).
    pub const WRITE: WatchFlags = flag!(WatchBits::WRITE);

    /// An instruction that is fetched (WA_EXEC).
    pub const EXEC: WatchFlags = flag!(WatchBits::EXEC);

    /// The stop comes after the access and not before it (WA_TRAPAFTER).
    pub const TRAPAFTER: WatchFlags = flag!(WatchBits::TRAPAFTER);
}
