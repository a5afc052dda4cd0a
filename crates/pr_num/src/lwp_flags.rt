ghost use Rattle.std.specs.Prelude.{⊤, ◌≡◌, [], ◌∷◌, codes};
ghost use Rattle.pr_num.specs.Flags.{known_bits-six};

use crate::flags::{FlagBits, KnownFlags, flag};
use bitflags::{Flag, Flags, bitflag_items};

/// Any bits of a word, also such as are no flag of an lwp: what `bitflags` works on.
#[derive(Clone, Copy, Debug, PartialEq, Eq)]
pub struct LwpBits(u64);

bitflag_items! {
    impl LwpBits: u64 {
        const STOPPED = 1;
        const ISTOP = 2;
        const DSTOP = 4;
        const STEP = 8;
        const ASLEEP = 16;
        const AGENT = 32;
    }
}

impl Flags for LwpBits {
    type Bits = u64;

    ghost exact = { ⊤ };

    ghost table = { (codes "STOPPED", 1) ∷ (codes "ISTOP", 2) ∷ (codes "DSTOP", 4)
        ∷ (codes "STEP", 8) ∷ (codes "ASLEEP", 16) ∷ (codes "AGENT", 32) ∷ [] };

    ghost set_of = { λ flags. flags.0 };

    fn flags<'a>() -> &'a [Flag<LwpBits>] {
        LwpBits::FLAGS
    }

    fn bits(&self) -> u64 {
        self.0
    }

    fn from_bits_retain(bits: u64) -> LwpBits {
        LwpBits(bits)
    }
}

impl FlagBits for LwpBits {
    ghost width = { 6 };

    ghost is_exact = { tt };

    ghost lowest = { known_bits-six _ _ _ _ _ _ };
}

/// How an lwp stands (proc(4), "lwpstatus"). Seen by contracts as the word of its flags, whose numbers are this
/// project's own.
pub type LwpFlags = KnownFlags<LwpBits>;

impl KnownFlags<LwpBits> {
    /// It is stopped (PR_STOPPED).
    pub const STOPPED: LwpFlags = flag!(LwpBits::STOPPED);

    /// It is stopped on an event of interest (PR_ISTOP).
    pub const ISTOP: LwpFlags = flag!(LwpBits::ISTOP);

    /// It is directed to stop (PR_DSTOP).
    pub const DSTOP: LwpFlags = flag!(LwpBits::DSTOP);

    /// It is to incur FLTTRACE after the next instruction (PR_STEP).
    pub const STEP: LwpFlags = flag!(LwpBits::STEP);

    /// It is asleep in a system call (PR_ASLEEP).
    pub const ASLEEP: LwpFlags = flag!(LwpBits::ASLEEP);

    /// It is the agent (PR_AGENT).
    pub const AGENT: LwpFlags = flag!(LwpBits::AGENT);
}
